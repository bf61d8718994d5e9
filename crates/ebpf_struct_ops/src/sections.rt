//! The sections that hold variables of struct_ops.

ghost use Rattle.std.specs.Prelude.{◌≡◌};
ghost use Rattle.ebpf_parts.specs.ProgramTypes.{lookup_piece};
ghost use Rattle.ebpf_struct_ops.specs.Sections.{section_rule, section_rules};

use ebpf_elf::ElfSection;

/// The type of a section with bytes of the program (`SHT_PROGBITS`).
const SHT_PROGBITS: u32 = 1;

/// How the maps of a section of struct_ops are made, by the section's name.
#[derive(Clone, Copy, Debug, PartialEq, Eq)]
pub struct SectionRule {
    /// Whether a loader creates the maps without being asked.
    pub is_created: bool,
    /// Whether a link attaches the maps.
    pub is_link: bool,
}

/// The rule of a section, by its name. `None` for other sections.
#[tactic(auto, unfolding(crate::specs::Sections::section_rules))]
fn rule_by(name: &str) -> Option<SectionRule>
    ensures { result ≡ lookup_piece section_rules name.now }
{
    match name {
        ".struct_ops" => Some(SectionRule {
            is_created: true,
            is_link: false,
        }),
        ".struct_ops.link" => Some(SectionRule {
            is_created: true,
            is_link: true,
        }),
        "?.struct_ops" => Some(SectionRule {
            is_created: false,
            is_link: false,
        }),
        "?.struct_ops.link" => Some(SectionRule {
            is_created: false,
            is_link: true,
        }),
        _ => None,
    }
}

/// The rule of a section. `None` for sections that hold no variables of struct_ops.
#[tactic(auto, unfolding(crate::specs::Sections::section_rule))]
pub fn section_rule(section: &ElfSection<'_>) -> Option<SectionRule>
    ensures { result ≡ section_rule section.now }
{
    if section.kind_number() != SHT_PROGBITS || section.size() == 0 {
        return None;
    }
    match section.name() {
        Ok(name) => rule_by(name),
        Err(_) => None,
    }
}
