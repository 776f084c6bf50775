// One record: what was computed, applied to its instruction.
#![tactic(auto)]

ghost use Rattle.std.specs.Prelude.{◌≡◌};
ghost use Rattle.btf_view.specs.Lent.{lent};
ghost use Rattle.rules.specs.Record.{record_of};
ghost use Rattle.rules.specs.Report.{answered};
ghost use Rattle.call_apply.specs.Applied.{outcome_of};

use btf_view::Types;
use call_compute::record_write;
use call_conclude::shown_answer;
use insn_patch::patch;
use rules::{Answer, ENUM_VARIANT_VALUE, Record, Refusal, Write};

// What one record wrote, or why it is refused.
#[tactic(auto, unfolding(rules::specs::Record::record_of, rules::specs::Record::apply))]
fn write_record(
    local: &Types,
    target: &Types,
    insns: &mut [u8],
    section: u64,
    relo: Record,
) -> Result<Write, Refusal>
    ensures { outcome_of (answered result) insns.new
        ≡ record_of (lent local.now) (lent target.now) section insns.old relo }
{
    let beyond = ENUM_VARIANT_VALUE < relo.kind;
    if beyond {
        return Err(Refusal::KindTooBig(relo.kind));
    }
    let start = (relo.offset as u64)
        .checked_sub(section)
        .ok_or(Refusal::NotInFunction)?;
    let index = start / 8;
    if index as usize >= insns.len() / 8 {
        return Err(Refusal::NotInFunction);
    }
    let write = record_write(local, target, relo)?;
    patch(insns, index as u32, write)?;
    Ok(write)
}

// One record.
pub fn apply_record(
    local: &Types,
    target: &Types,
    insns: &mut [u8],
    section: u64,
    relo: Record,
) -> Answer
    ensures { outcome_of result insns.new
        ≡ record_of (lent local.now) (lent target.now) section insns.old relo }
{
    match write_record(local, target, insns, section, relo) {
        Ok(write) => shown_answer(write),
        Err(why) => Answer::Refused(why),
    }
}
