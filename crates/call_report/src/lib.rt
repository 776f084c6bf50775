// Section 9's report of a call that was made: the applied records' values by the two BTFs, then the refusal.
#![tactic(auto)]

ghost use Rattle.std.specs.Prelude.{◌≡◌, ◌≤◌, ◌+◌, ◌*◌, ◌-◌, ◌/◌, min, length};
ghost use Rattle.btf_view.specs.Lent.{lent};
ghost use Rattle.rules.specs.Record as rule;
ghost use Rattle.rules.specs.Call.{records_in};
ghost use Rattle.rules.specs.Report.{answered, report_said};
ghost use Rattle.call_lines.specs.Pieces.{Wrote};
ghost use Rattle.call_report.specs.Reported.{lines_again, lines_last, reported, holding};

use btf_view::Types;
use call_compute::{record_at, record_write};
use call_conclude::shown_answer;
use call_lines::{near, put_record};
use rules::{Answer, Ending, Record, Said};

// Nothing was written: so many bytes are needed.
#[derive(Clone, Copy)]
pub struct TooShort {
    pub needed: u64,
}

// What a record was answered, by what it writes.
fn answer_again(local: &Types, target: &Types, relo: Record) -> Answer
    ensures { result ≡ answered (rule.relocated (lent local.now) (lent target.now) relo) }
{
    match record_write(local, target, relo) {
        Ok(write) => shown_answer(write),
        Err(refusal) => Answer::Refused(refusal),
    }
}

// The index of an instruction, by its offset in the section.
fn index_of(section: u64, offset: u32) -> u64
    ensures { result ≡ (offset - section) / 8 }
{
    (offset as u64).saturating_sub(section) / 8
}

// The lines of record k, which was applied.
#[tactic(auto, using(crate::proofs::Laws::applied, call_lines::proofs::Laws::called))]
fn put_applied(
    out: &mut [u8],
    at: u64,
    local: &Types,
    target: &Types,
    section: u64,
    records: &[u8],
    k: u64,
) -> u64
    requires { 16 * k + 16 ≤ length records.now }
    ensures { Wrote out.old at (lines_again (lent local.now) (lent target.now) section records.now k)
        out.new result }
{
    let relo = record_at(records, k as usize);
    let answer = answer_again(local, target, relo);
    put_record(out, at, k, index_of(section, relo.offset), answer)
}

// The lines of record k, where the call ended there.
#[tactic(auto, using(crate::proofs::Laws::last_past, crate::proofs::Laws::last_none, crate::proofs::Laws::last_stopped, call_lines::proofs::Laws::called))]
fn put_last(out: &mut [u8], at: u64, section: u64, records: &[u8], k: u64, ending: Ending) -> u64
    ensures { Wrote out.old at (lines_last section records.now k ending) out.new result }
{
    let count = (records.len() / 16) as u64;
    if k >= count {
        return near(at);
    }
    let Ending::Stopped(_, refusal) = ending else {
        return near(at);
    };
    let relo = record_at(records, k as usize);
    put_record(
        out,
        at,
        k,
        index_of(section, relo.offset),
        Answer::Refused(refusal),
    )
}

// The whole report, as far as it fits.
fn put_said(
    out: &mut [u8],
    local: &Types,
    target: &Types,
    section: u64,
    records: &[u8],
    said: Said,
) -> u64
    ensures { Wrote out.old 0 (report_said (lent local.now) (lent target.now) section
        (records_in records.now) said) out.new result }
{
    let count = (records.len() / 16) as u64;
    let answered = count.min(said.applied);
    let mut at = 0;
    for k in 0..answered {
        at = put_applied(out, at, local, target, section, records, k);
    }
    put_last(out, at, section, records, answered, said.ending)
}

// The report into a lent buffer; nothing is written where it does not fit.
pub fn report(
    local: &Types,
    target: &Types,
    section: u64,
    records: &[u8],
    said: Said,
    out: &mut [u8],
) -> Result<u64, TooShort>
    ensures answer { result ≡ reported (report_said (lent local.now) (lent target.now) section (records_in records.now) said)
        out.old }
    ensures buffer { out.new ≡ holding
        (report_said (lent local.now) (lent target.now) section (records_in records.now) said) out.old }
{
    let needed = put_said(&mut [], local, target, section, records, said);
    let too_long = needed > out.len() as u64;
    if too_long {
        return Err(TooShort { needed });
    }
    Ok(put_said(out, local, target, section, records, said))
}
