// The search for a member by its name, in the target's types.
//   struct task {
//       int pid;
//       union {
//           struct { int x; int y; };
//           long z;
//       };
//   };
// `y` is no named member of task: the search goes down into the unnamed union, and there into the unnamed struct, where `y`
// stands at bit 32. On the way back each level adds its member's bit offset and one part: bits 32, 32 + 0, 32 + 0 + 64,
// and three parts more than before. That `pid` comes first is no matter; had an earlier member of any of the three been
// named `y`, it would have decided.
#![tactic(auto)]

ghost use Rattle.std.specs.Prelude.{◌≡◌, ◌+◌, ◌<◌};
ghost use Rattle.btf_view.specs.Lent.{lent};
ghost use Rattle.rules.specs.Matching.{grown};
ghost use Rattle.match_search.specs.Parts.{part_count};
ghost use Rattle.match_search.specs.Settled.{member_count, settled, searched};

use access_bits::bits_sum;
use access_step::member_bits;
use btf_kinds::Entry;
use btf_view::Types;
use rules::{Accessor, MAX_SPEC_LEN, Refusal, Target};
use types_chain::{is_composite, resolve_type};
use types_field_compat::fields_are_compatible;
use types_names::same_text;

// The local member that is looked for, from a place of a candidate's walk.
#[derive(Clone, Copy)]
pub struct Wanted {
    pub candidate: u32,
    pub from: Target,
    pub member: Entry,
}

// On the way back from a member: its bit offset is added, and one part, untested.
fn grow(below: Result<Option<Target>, Refusal>, bits: u32) -> Result<Option<Target>, Refusal>
    requires { part_count below + 1 < 4294967296 }
    ensures { result ≡ grown bits below }
{
    let Some(place) = below? else {
        return Ok(None);
    };
    let sum = bits_sum(place.bits, bits as u64)?;
    Ok(Some(Target {
        typ: place.typ,
        last: place.last,
        bits: sum,
        parts: place.parts + 1,
    }))
}

// The member k of the target's type id has the local member's name: it decides. Compatible it is found, else it is not.
#[tactic(auto, unfolding(crate::specs::Settled::settled))]
fn settle(
    local: &Types,
    target: &Types,
    want: Wanted,
    id: u32,
    k: u32,
) -> Result<Option<Target>, Refusal>
    requires { want.from.parts + 1 < 4294967296 }
    ensures { result ≡ settled (lent local.now) (lent target.now) want id k }
{
    let m = target.entry_of(id, k);
    if !fields_are_compatible(local, target, want.member.typ, m.typ)? {
        return Ok(None);
    }
    let here = Target {
        typ: m.typ,
        last: Accessor {
            typ: id,
            index: k as u64,
            named: true,
        },
        bits: want.from.bits,
        parts: want.from.parts,
    };
    grow(Ok(Some(here)), member_bits(target, id, m))
}

// How many members a type has: none but in a struct or a union.
fn members_of(types: &Types, id: u32) -> u32
    ensures { result ≡ member_count ((lent types.now).typ id) }
{
    if !is_composite(types.kind_of(id)) {
        return 0;
    }
    types.count_of(id)
}

// The wanted member, in the target's type id: by its name, through unnamed members for as many levels as are left.
pub fn search_member(
    local: &Types,
    target: &Types,
    want: Wanted,
    id: u32,
    levels: u32,
) -> Result<Option<Target>, Refusal>
    requires { want.from.parts + levels + 2 < 4294967296 }
    ensures { result ≡ searched (lent local.now) (lent target.now) want levels id }
{
    let i = resolve_type(target, id)?;
    let name = local.text_of(want.member.name);
    for k in 0..members_of(target, i) {
        if want.from.parts == MAX_SPEC_LEN {
            return Err(Refusal::MaximumNesting(want.candidate));
        }
        let m = target.entry_of(i, k);
        let text = target.text_of(m.name);
        if text.len() == 0 {
            let deepest = levels == 0;
            if deepest {
                return Err(Refusal::TooDeep);
            }
            let below = search_member(local, target, want, m.typ, levels - 1);
            let up = grow(below, member_bits(target, i, m))?;
            if up.is_some() {
                return Ok(up);
            }
        } else if same_text(name, text) {
            return settle(local, target, want, i, k);
        }
    }
    Ok(None)
}
