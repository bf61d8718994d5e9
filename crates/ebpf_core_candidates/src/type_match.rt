//! Decides whether a type of an object matches a type of a kernel.

ghost use Rattle.std.specs.Prelude.{◌≡◌, length};
ghost use Rattle.std.specs.List.{zip};
ghost use Rattle.ebpf_base.specs.Faults.{Gives};
ghost use Rattle.ebpf_btf.specs.Memory.{is_btf_memory};
ghost use Rattle.ebpf_core_candidates.specs.TypeMatches.{all_match, answer_with, any_matches, have_one_name, matched_from, param_matches, part_is_found, part_matches, parts_match, parts_of, too_many_looks, types_match, walk_by_test, walk_step};

use crate::compatible::both;
use crate::match_tests::{
    MatchTest, MatchedPair, NamedPart, match_test, matched_pair, part_at, part_count,
};
use ebpf_btf::{Btf, BtfError, BtfParam, BtfType, Rows};
use std::marker::Model;

/// The maximum number of levels of members and parameters.
const MATCH_LEVELS: u32 = 32;

/// The maximum number of types that follow one another on a level: by pointers, arrays and results.
const MATCH_DEPTH: u32 = 32;

/// The maximum number of looks: at a pair of types, or at a pair of members or enumerators.
const MATCH_LOOKS: u32 = 1_048_576;

/// Whether two types match, and the number of looks that are left.
#[derive(Clone, Copy)]
pub struct MatchAnswer {
    pub matches: bool,
    pub left: u32,
}

/// The result of a look at a pair of types: an answer, or the next pair.
#[derive(Clone, Copy)]
pub enum MatchWalk {
    /// The answer for the pair.
    Found(MatchAnswer),
    /// The answer is that of another pair.
    Onward { pair: MatchedPair, left: u32 },
}

/// The types of an object and of a kernel, and the id of the object's type at the start.
#[derive(Drop)]
struct MatchInput<'a> {
    local: &'a Btf,
    target: &'a Btf,
    root: u32,
}

impl<'a> Model for MatchInput<'a> {
    ghost use Rattle.ebpf_core_candidates.specs.TypeMatches.{MatchSides};

    ghost Value = { MatchSides };

    ghost view = { λ s. record { local = s.local.now; target = s.target.now; root = s.root } };
}

/// Returns the error of more levels or looks than there may be.
fn too_many<X>(sides: &MatchInput<'_>) -> Result<X, BtfError>
    ensures { result ≡ too_many_looks sides.now }
{
    Err(BtfError::MaximumTypeDepth {
        type_id: sides.root,
    })
}

/// Returns an answer.
fn answer(matches: bool, left: u32) -> Result<MatchAnswer, BtfError>
    ensures { result ≡ answer_with matches left }
{
    Ok(MatchAnswer { matches, left })
}

/// Returns whether two types have the same essential name.
fn have_one_name(
    sides: &MatchInput<'_>,
    local: &BtfType<'_>,
    target: &BtfType<'_>,
) -> Result<bool, BtfError>
    ensures { Gives is_btf_memory result (have_one_name sides.now local.now target.now) }
{
    let name = sides.local.type_name(local)?;
    sides
        .target
        .is_essential_name_at(target.name_offset(), name.as_str())
}

/// Looks at a part of the kernel's type, for a local part with a name.
#[cycle(matching)]
#[tactic(auto, unfolding(crate::specs::TypeMatches::part_matches))]
fn part_matches(
    sides: &MatchInput<'_>,
    below: u32,
    name: &str,
    part: NamedPart,
    left: u32,
    other: NamedPart,
) -> Result<MatchAnswer, BtfError>
    ensures { Gives is_btf_memory result
        (part_matches (matched_from sides.now below) sides.now name.now part left other) }
{
    if left == 0 {
        return too_many(sides);
    }
    let left = left - 1;
    if !sides.target.is_essential_name_at(other.name_offset, name)? {
        return answer(false, left);
    }
    match both(part.btf_type, other.btf_type) {
        Some(pair) => matched(sides, below, left, matched_pair(false, pair)),
        None => answer(true, left),
    }
}

/// Looks for a part of the kernel's type that matches a local part with a name.
#[cycle(matching)]
fn any_part(
    sides: &MatchInput<'_>,
    below: u32,
    name: &str,
    part: NamedPart,
    left: u32,
    target: &BtfType<'_>,
) -> Result<MatchAnswer, BtfError>
    ensures { Gives is_btf_memory result
        (any_matches (part_matches (matched_from sides.now below) sides.now name.now part)
        (parts_of target.now) left) }
{
    let mut left = left;
    for k in 0..part_count(target) {
        let Some(other) = part_at(target, k) else {
            return answer(false, left);
        };
        let found = part_matches(sides, below, name, part, left, other)?;
        if found.matches {
            return Ok(found);
        }
        left = found.left;
    }
    answer(false, left)
}

/// Looks for a part of the kernel's type that matches a local part.
#[cycle(matching)]
#[tactic(auto, unfolding(crate::specs::TypeMatches::part_is_found))]
fn part_is_found(
    sides: &MatchInput<'_>,
    below: u32,
    left: u32,
    part: NamedPart,
    target: &BtfType<'_>,
) -> Result<MatchAnswer, BtfError>
    ensures { Gives is_btf_memory result
        (part_is_found (matched_from sides.now below) sides.now (parts_of target.now) left part) }
{
    let name = sides.local.string_at(part.name_offset)?;
    any_part(sides, below, name.as_str(), part, left, target)
}

/// Looks for a match of each part of the local type.
#[cycle(matching)]
fn parts_match(
    sides: &MatchInput<'_>,
    below: u32,
    left: u32,
    local: &BtfType<'_>,
    target: &BtfType<'_>,
) -> Result<MatchAnswer, BtfError>
    ensures { Gives is_btf_memory result
        (parts_match (matched_from sides.now below) sides.now local.now target.now left) }
{
    let mut left = left;
    for k in 0..part_count(local) {
        let Some(part) = part_at(local, k) else {
            return answer(true, left);
        };
        let found = part_is_found(sides, below, left, part, target)?;
        if !found.matches {
            return Ok(found);
        }
        left = found.left;
    }
    answer(true, left)
}

/// Compares the types of parameters, one pair after the other.
#[cycle(matching)]
fn parameters_match(
    sides: &MatchInput<'_>,
    below: u32,
    left: u32,
    local: &Rows<'_, BtfParam>,
    target: &Rows<'_, BtfParam>,
    behind_pointer: bool,
) -> Result<MatchAnswer, BtfError>
    ensures { Gives is_btf_memory result
        (all_match (param_matches (matched_from sides.now below) behind_pointer)
        (zip local.now target.now) left) }
{
    let mut left = left;
    for k in 0..local.len() {
        let Some(other) = target.get(k) else {
            return answer(true, left);
        };
        let pair = MatchedPair {
            local: local.at(k).btf_type,
            target: other.btf_type,
            behind_pointer,
        };
        let found = matched(sides, below, left, pair)?;
        if !found.matches {
            return Ok(found);
        }
        left = found.left;
    }
    answer(true, left)
}

/// Carries out the test of two types.
#[cycle(matching)]
#[tactic(auto, unfolding(crate::specs::TypeMatches::walk_by_test))]
fn walk_by_test(
    sides: &MatchInput<'_>,
    below: u32,
    left: u32,
    test: MatchTest<'_>,
) -> Result<MatchWalk, BtfError>
    ensures { Gives is_btf_memory result (walk_by_test (matched_from sides.now below) sides.now left test.entry) }
{
    match test {
        MatchTest::Decided { matches } => Ok(MatchWalk::Found(MatchAnswer { matches, left })),
        MatchTest::Inner { pair } => Ok(MatchWalk::Onward { pair, left }),
        MatchTest::Parts { local, target } => {
            let found = parts_match(sides, below, left, &local, &target)?;
            Ok(MatchWalk::Found(found))
        }
        MatchTest::Parameters {
            local,
            target,
            results,
        } => {
            let behind = results.behind_pointer;
            let found = parameters_match(sides, below, left, &local, &target, behind)?;
            if !found.matches {
                return Ok(MatchWalk::Found(found));
            }
            Ok(MatchWalk::Onward {
                pair: results,
                left: found.left,
            })
        }
    }
}

/// Looks at a pair of types.
#[cycle(matching)]
#[tactic(auto, unfolding(crate::specs::TypeMatches::walk_step))]
fn walk_step(
    sides: &MatchInput<'_>,
    below: u32,
    left: u32,
    pair: MatchedPair,
) -> Result<MatchWalk, BtfError>
    ensures { Gives is_btf_memory result (walk_step (matched_from sides.now below) sides.now left pair) }
{
    if left == 0 {
        return too_many(sides);
    }
    let left = left - 1;
    let local = sides.local.resolved_type(pair.local)?;
    let target = sides.target.resolved_type(pair.target)?;
    if !have_one_name(sides, &local, &target)? {
        return Ok(MatchWalk::Found(MatchAnswer {
            matches: false,
            left,
        }));
    }
    let test = match_test(pair.behind_pointer, local, target);
    walk_by_test(sides, below, left, test)
}

/// Compares a pair of types, where so many levels of members and parameters are left.
#[cycle(matching)]
fn matched(
    sides: &MatchInput<'_>,
    levels: u32,
    left: u32,
    pair: MatchedPair,
) -> Result<MatchAnswer, BtfError>
    ensures { Gives is_btf_memory result (matched_from sides.now levels left pair) }
{
    if levels == 0 {
        return too_many(sides);
    }
    let mut left = left;
    let mut pair = pair;
    for _step in 0..MATCH_DEPTH {
        match walk_step(sides, levels - 1, left, pair)? {
            MatchWalk::Found(found) => return Ok(found),
            MatchWalk::Onward {
                pair: next,
                left: rest,
            } => {
                pair = next;
                left = rest;
            }
        }
    }
    too_many(sides)
}

/// Returns whether the type `local_id` of an object matches the type `target_id` of a kernel (libbpf 1.7.0,
/// src/relo_core.c, `bpf_core_types_match`).
///
/// Pairs of types are compared. Both types of a pair are resolved first, and their essential names have to be the same.
/// Then the local type's kind decides:
///
/// - `void`: matches `void`.
/// - INT: matches an INT of the same size and sign.
/// - ENUM, ENUM64: matches either, of the same size, with a variant of the name of each local variant.
/// - STRUCT, UNION: matches one of its kind that has, for each local member, a member of its name whose type matches.
///   Behind a pointer only names and kinds count, and a forward declaration of the kind matches too.
/// - FWD: matches a FWD of its kind; behind a pointer also what it declares.
/// - PTR, ARRAY: matches one of its kind where the inner types match; ARRAYs need the same number of elements.
/// - FUNC_PROTO: matches one with as many parameters where the types of the parameters and of the results match.
/// - Other kinds: match nothing.
///
/// # Errors
///
/// Pairs are met depth first, members in their order. At each pair, the error of the local side comes first:
///
/// - `UnknownBtfType`, `MaximumTypeDepth`: as in `resolve_type`.
/// - `InvalidStringOffset`: a name cannot be read.
/// - `MaximumTypeDepth` of `local_id`: a pair is more than 31 members and parameters deep, or the 33rd in a row by
///   pointers, arrays and results; or it is look 1,048,577, where each pair of types and of parts is a look.
/// - `OutOfMemory`: a local name is not UTF-8, and there is no memory for a copy.
#[tactic(auto, unfolding(crate::specs::TypeMatches::types_match))]
pub fn types_match(
    local: &Btf,
    local_id: u32,
    target: &Btf,
    target_id: u32,
) -> Result<bool, BtfError>
    ensures { Gives is_btf_memory result (types_match local.now local_id target.now target_id) }
{
    let sides = MatchInput {
        local,
        target,
        root: local_id,
    };
    let pair = MatchedPair {
        local: local_id,
        target: target_id,
        behind_pointer: false,
    };
    let found = matched(&sides, MATCH_LEVELS, MATCH_LOOKS, pair)?;
    Ok(found.matches)
}
