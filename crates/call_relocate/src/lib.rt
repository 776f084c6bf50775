// The whole call: both BTFs read from bytes, then the records of the list.
#![tactic(auto)]

ghost use Rattle.std.specs.Prelude.{◌≡◌, length};
ghost use Rattle.btf_accept.specs.Table.{tabled};
ghost use Rattle.btf_view.specs.Lent.{lent};
ghost use Rattle.rules.specs.Call.{relocate_of, local_table, target_table};
ghost use Rattle.call_records.specs.Run.{effect_of};
ghost use Rattle.call_relocate.specs.Reading.{unread_of, on_target};

use btf_accept::{Reading, read};
use btf_view::Types;
use call_records::{run_records, shape_fine, unrun};
use rules::{Ending, Said, Which};

// Why a BTF was not read.
fn unread(which: Which, reading: Reading) -> Ending
    ensures { result ≡ unread_of which reading }
{
    match reading {
        Reading::Read(btf) => Ending::Done,
        Reading::NoBtf(id) => Ending::BadBtf(which, id),
        Reading::TooBig => Ending::OverLimit(which),
        Reading::TooShort(entries) => Ending::TableShort(which, entries),
    }
}

// The target read, and the records applied, where the local BTF was read before.
#[tactic(auto, using(btf_view::proofs::Agree::views_agree))]
fn relocate_on(
    local: &Types,
    target: &[u8],
    ttable: &mut [u32],
    insns: &mut [u8],
    section: u64,
    records: &[u8],
) -> Said
    ensures effect { effect_of result insns.new
        ≡ on_target (lent local.now) target.now (length ttable.old) insns.old section records.now }
    ensures table { ttable.new ≡ tabled target.now ttable.old }
{
    let t = read(target, ttable);
    let Reading::Read(btf) = t else {
        return unrun(unread(Which::Target, t));
    };
    let target = Types {
        bytes: target,
        table: ttable,
        btf,
    };
    run_records(local, &target, insns, section, records)
}

// The whole call: the bytes' shape, the local BTF, the target BTF, then the records in order up to the first refusal. Both
// tables are lent for where the types begin.
#[tactic(auto, using(btf_view::proofs::Agree::views_agree), unfolding(rules::specs::Call::relocate_of, rules::specs::Call::local_table, rules::specs::Call::target_table))]
pub fn relocate(
    local: &[u8],
    ltable: &mut [u32],
    target: &[u8],
    ttable: &mut [u32],
    insns: &mut [u8],
    section: u64,
    records: &[u8],
) -> Said
    ensures effect { effect_of result insns.new
        ≡ relocate_of local.now (length ltable.old) target.now (length ttable.old) insns.old section
        records.now }
    ensures local { ltable.new ≡ local_table local.now ltable.old insns.old section records.now }
    ensures target { ttable.new ≡ target_table local.now (length ltable.old) target.now ttable.old
        insns.old section records.now }
{
    if !shape_fine(insns, section, records) {
        return unrun(Ending::Misshapen);
    }
    let l = read(local, ltable);
    let Reading::Read(btf) = l else {
        return unrun(unread(Which::Local, l));
    };
    let local = Types {
        bytes: local,
        table: ltable,
        btf,
    };
    relocate_on(&local, target, ttable, insns, section, records)
}
