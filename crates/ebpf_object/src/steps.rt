//! Common choices of the passes.

ghost use Rattle.std.specs.Prelude.{◌≡◌, map, false, true, None, Some};
ghost use Rattle.std.specs.Option.{option_copied};
ghost use Rattle.ebpf_object.specs.Stages.{chosen, descriptor_of};

use crate::prepare::Steps;
use ebpf_btf::Btf;

impl<'a> Steps<'a> {
    /// No pass: the object stays as it was parsed. Nothing that is missing is refused, until `refuse_missing`.
    pub fn none() -> Steps<'a>
        ensures { chosen result
            ≡ record {
              target = None;
              descriptors = None;
              kernel = None;
              externs = false;
              calls = false;
              complete = false;
            } }
    {
        Steps {
            target_btf: None,
            map_fds: None,
            externs: None,
            calls: false,
            complete: false,
        }
    }

    /// All passes, for a kernel whose types are known, with descriptors of the object's maps by their names.
    ///
    /// Give a descriptor for every map that a slot refers to, also for `.bss`, `.data` and `.rodata` with the variables. A
    /// slot whose own map has none is refused with the map's name, before anything is written, and so is a name that the
    /// object lacks. `allow_missing` takes incomplete descriptors.
    pub fn all(kernel: &'a Btf, descriptors: &'a [(&'a str, i32)]) -> Steps<'a>
        ensures { chosen result
            ≡ record {
              target = Some kernel.now;
              descriptors = Some (map descriptor_of descriptors.now);
              kernel = Some (Some kernel.now);
              externs = true;
              calls = true;
              complete = true;
            } }
    {
        Steps::all_with(Some(kernel), descriptors)
    }

    /// All passes, as `all` says, but that functions are relocated to a kernel's types only where these are given, and that
    /// externs are resolved by its symbols alone where they aren't.
    pub fn all_with(kernel: Option<&'a Btf>, descriptors: &'a [(&'a str, i32)]) -> Steps<'a>
        ensures { chosen result
            ≡ record {
              target = option_copied kernel.entry;
              descriptors = Some (map descriptor_of descriptors.now);
              kernel = Some (option_copied kernel.entry);
              externs = true;
              calls = true;
              complete = true;
            } }
    {
        Steps {
            target_btf: kernel,
            map_fds: Some(descriptors),
            externs: Some(kernel),
            calls: true,
            complete: true,
        }
    }

    /// These steps, with functions relocated to a kernel's types.
    pub fn with_types(self, kernel: &'a Btf) -> Steps<'a>
        ensures { chosen result ≡ record (chosen self.entry) { target = Some kernel.now } }
    {
        Steps {
            target_btf: Some(kernel),
            ..self
        }
    }

    /// These steps, with descriptors of the object's maps, as `all` says.
    pub fn with_descriptors(self, descriptors: &'a [(&'a str, i32)]) -> Steps<'a>
        ensures { chosen result
            ≡ record (chosen self.entry)
            { descriptors = Some (map descriptor_of descriptors.now) } }
    {
        let map_fds = Some(descriptors);
        Steps { map_fds, ..self }
    }

    /// These steps, with externs resolved by a kernel's types and symbols, and written.
    pub fn with_externs(self, kernel: &'a Btf) -> Steps<'a>
        ensures { chosen result
            ≡ record (chosen self.entry) { kernel = Some (Some kernel.now); externs = true } }
    {
        Steps {
            externs: Some(Some(kernel)),
            ..self
        }
    }

    /// These steps, with externs resolved by a kernel's symbols alone, and written: for a kernel whose types aren't known.
    /// A strong extern whose type is to be compared is then refused.
    pub fn with_externs_by_symbols(self) -> Steps<'a>
        ensures { chosen result
            ≡ record (chosen self.entry) { kernel = Some None; externs = true } }
    {
        Steps {
            externs: Some(None),
            ..self
        }
    }

    /// These steps, with programs linked with the functions that they reach.
    pub fn with_calls(self) -> Steps<'a>
        ensures { chosen result ≡ record (chosen self.entry) { calls = true } }
    {
        let calls = true;
        Steps { calls, ..self }
    }
    /// These steps, with nothing missing: `complete` is true.
    pub fn refuse_missing(self) -> Steps<'a>
        ensures { chosen result ≡ record (chosen self.entry) { complete = true } }
    {
        let complete = true;
        Steps { complete, ..self }
    }

    /// These steps, with incomplete descriptors and unwritten externs taken: `complete` is false. A slot whose own map has
    /// no descriptor then gets that of another map of its section, where one has one.
    pub fn allow_missing(self) -> Steps<'a>
        ensures { chosen result ≡ record (chosen self.entry) { complete = false } }
    {
        let complete = false;
        Steps { complete, ..self }
    }
}
