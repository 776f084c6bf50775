// The records of a list, one by one, between two BTFs that were read before.
#![tactic(auto)]

ghost use Rattle.std.specs.Prelude.{◌≡◌};
ghost use Rattle.btf_view.specs.Lent.{lent};
ghost use Rattle.rules.specs.Call.{ended, shaped, run_of, relocate_read};
ghost use Rattle.call_records.specs.Run.{effect_of};

use btf_view::Types;
use call_apply::apply_record;
use call_compute::record_at;
use rules::{Answer, Ending, Said};

const MAX_INSNS: usize = 4096;

// The records in order, up to the first refusal.
pub fn run_records(
    local: &Types,
    target: &Types,
    insns: &mut [u8],
    section: u64,
    records: &[u8],
) -> Said
    ensures { effect_of result insns.new
        ≡ run_of (lent local.now) (lent target.now) section insns.old records.now }
{
    let n = records.len() / 16;
    for k in 0..n {
        let a = apply_record(local, target, insns, section, record_at(records, k));
        if let Answer::Refused(why) = a {
            return Said {
                ending: Ending::Stopped(k as u64, why),
                applied: k as u64,
            };
        }
    }
    Said {
        ending: Ending::Done,
        applied: n as u64,
    }
}

// Whole instructions, no more than carried; a section offset of whole instructions; whole records.
#[tactic(auto, unfolding(rules::specs::Call::shaped))]
pub fn shape_fine(insns: &[u8], section: u64, records: &[u8]) -> bool
    ensures { result ≡ shaped insns.now section records.now }
{
    insns.len() % 8 == 0
        && section % 8 == 0
        && records.len() % 16 == 0
        && insns.len() / 8 <= MAX_INSNS
}

// A call that ended before its first record.
pub fn unrun(ending: Ending) -> Said
    ensures { result ≡ ended ending 0 }
{
    Said { ending, applied: 0 }
}

// Applies the records to a function, between two BTFs that were read before. Answers for any bytes, any tables and any
// places: what stands at an id is what the tables say.
#[tactic(auto, unfolding(rules::specs::Call::relocate_read))]
pub fn relocate_read(
    local: &Types,
    target: &Types,
    insns: &mut [u8],
    section: u64,
    records: &[u8],
) -> Said
    ensures { effect_of result insns.new
        ≡ relocate_read (lent local.now) (lent target.now) insns.old section records.now }
{
    if !shape_fine(insns, section, records) {
        return unrun(Ending::Misshapen);
    }
    run_records(local, target, insns, section, records)
}
