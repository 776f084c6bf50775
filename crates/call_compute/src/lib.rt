// What a record writes: its local access, its matches in the target, its value; no instruction is looked at.
#![tactic(auto)]

ghost use Rattle.std.specs.Prelude.{◌≡◌, ◌+◌, ◌*◌};
ghost use Rattle.btf_view.specs.Lent.{lent};
ghost use Rattle.rules.specs.Record.{accessed, relocated};
ghost use Rattle.rules.specs.Value.{local_value};
ghost use Rattle.rules.specs.Call.{record_at};
ghost use Rattle.access_walk.specs.Replies.{access_in, access_of};

use access_text::parse_access;
use access_walk::{Access, last_step, local_access};
use btf_view::Types;
use call_conclude::{conclude_from, write_computed};
use match_fold::match_candidates;
use rules::{Record, Refusal, Resize, TYPE_ID_LOCAL, Value, Write};
use types_chain::resolve_type;
use value_match::field_value;
use value_member::plain_value;
use word_read::u32_at;

// Record number k of a list; past its end all is 0.
#[tactic(auto, using(word_read::proofs::Laws::past))]
pub fn record_at(records: &[u8], k: usize) -> Record
    ensures { result ≡ record_at records.now k }
{
    if k > records.len() / 16 {
        return Record {
            offset: 0,
            typ: 0,
            access: 0,
            kind: 0,
        };
    }
    let at = 16 * k;
    Record {
        offset: u32_at(records, at),
        typ: u32_at(records, at + 4),
        access: u32_at(records, at + 8),
        kind: u32_at(records, at + 12),
    }
}

// What a record accesses, from its type id on. The parts come first, then the chain: where parts are refused, an endless
// chain is not looked at. Not inlined: it writes the 64 places where they are kept, and inlined they were copied once more.
#[tactic(auto, unfolding(rules::specs::Record::accessed))]
#[inline(never)]
fn record_access(types: &Types, relo: Record) -> Result<Access, Refusal>
    ensures { access_of result ≡ accessed (lent types.now) relo }
{
    if types.btf.last < relo.typ {
        return Err(Refusal::Unresolved);
    }
    if types.room() <= relo.access as usize {
        return Err(Refusal::Unresolved);
    }
    let parts = parse_access(types.text_of(relo.access));
    if let Err(refusal) = &parts {
        return Err(*refusal);
    }
    let id = resolve_type(types, relo.typ)?;
    local_access(types, relo.kind, id, parts)
}

// The record's own, local, value.
#[tactic(auto, unfolding(rules::specs::Value::local_value))]
fn own_value(types: &Types, kind: u32, access: &Access) -> Result<Value, Refusal>
    ensures { result ≡ local_value (lent types.now).typ kind (access_in access.now) }
{
    match access {
        Access::Path(path, bits) => field_value(types, kind, last_step(path.as_slice()), *bits),
        Access::Whole | Access::Variant(..) => Ok(plain_value(0)),
    }
}

// What a record writes, before any instruction is looked at. `TypeIdLocal` writes its own type id and looks at no target.
#[tactic(auto, unfolding(rules::specs::Record::relocated, rules::specs::Record::compute))]
pub fn record_write(local: &Types, target: &Types, relo: Record) -> Result<Write, Refusal>
    ensures { result ≡ relocated (lent local.now) (lent target.now) relo }
{
    let access = record_access(local, relo);
    let accessed = match &access {
        Ok(accessed) => accessed,
        Err(refusal) => return Err(*refusal),
    };
    if relo.kind == TYPE_ID_LOCAL {
        return Ok(Write::Put(relo.typ as u64, Resize::Same));
    }
    let mine = own_value(local, relo.kind, accessed);
    let kept = match_candidates(local, target, relo, &access, mine);
    let theirs = conclude_from(relo.kind, kept);
    write_computed(local, target, mine, theirs)
}
