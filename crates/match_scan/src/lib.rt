// The candidates: the target types of a kind and, but for flavours, a name, in id order.
#![tactic(auto)]

ghost use Rattle.std.specs.Prelude.{◌≡◌, suc, ◌-◌};
ghost use Rattle.btf_view.specs.Lent.{lent};
ghost use Rattle.match_scan.specs.Candidates.{candidate_by, first_from};

use btf_view::Types;
use types_names::same_named;

// Whether the target's type id has this kind and, but for flavours, this name.
fn is_candidate(target: &Types, kind: u32, name: &[u8], id: u32) -> bool
    ensures { result ≡ candidate_by kind name.now (lent target.now) id }
{
    if kind != target.kind_of(id) {
        return false;
    }
    same_named(name, target, target.name_of(id))
}

// The first candidate from an id on, if there is one. Every id is asked here, in one loop that does nothing else: the folds go
// from candidate to candidate.
pub fn next_candidate(target: &Types, kind: u32, name: &[u8], from: u64) -> Option<u32>
    ensures { result ≡ first_from (lent target.now) kind name.now from (suc (lent target.now).count - from) }
{
    // a copy: no field is loaded anew at each id
    let types = *target;
    let end = target.btf.last as u64 + 1;
    for id in from..end {
        if is_candidate(&types, kind, name, id as u32) {
            return Some(id as u32);
        }
    }
    None
}

// The name of the type with an id.
pub fn type_name<'a>(types: &Types<'a, '_>, id: u32) -> &'a [u8]
    ensures { result.now ≡ (lent types.now).text ((lent types.now).typ id).name }
{
    types.text_of(types.name_of(id))
}
