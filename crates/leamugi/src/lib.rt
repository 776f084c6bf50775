// The exported calls, on numbers and slices: each hands over to a proved function and lays out what it said as numbers.
// Every call answers for any bytes, any table and any numbers.
#![tactic(auto)]

ghost use Rattle.std.specs.Prelude.{◌≡◌, length};
ghost use Rattle.std.proofs.lemmas.List.Edits.{sets};
ghost use Rattle.btf_accept.specs.Table.{decode, tabled};
ghost use Rattle.btf_view.specs.Lent.{lent};
ghost use Rattle.btf_view.specs.View.{tab_view};
ghost use Rattle.rules.specs.Call.{relocate_read};
ghost use Rattle.call_report.specs.Reported.{reported, holding};
ghost use Rattle.leamugi_numbers.specs.Numbers.{btf_of, five, read_numbers, type_numbers, entry_numbers};
ghost use Rattle.leamugi_numbers.specs.Endings.{said_numbers};
ghost use Rattle.leamugi.specs.Calls.{lent_read, reported_five, length_of, reported_numbers, report_of};

use btf_accept::read;
use btf_view::Types;
use call_records::relocate_read;
use call_report::{TooShort, report};
use leamugi_numbers::{
    Numbers, btf_from, ending_numbers, entry_numbers, put_five, reading_numbers, said_numbers,
    type_numbers,
};

// Reads bytes as a BTF. Answers document 01's number 0 to 3 and says beside it: 0, where types and strings begin and how
// long they are, and the last id; 1, the id of the first fault; 3, the entries that the table needs.
#[unsafe(no_mangle)]
pub extern "C" fn leamugi_read(btf: &[u8], table: &mut [u32], said: &mut [u64]) -> u32
    ensures number { result ≡ (read_numbers (decode btf.now (length table.old))).number }
    ensures table { table.new ≡ tabled btf.now table.old }
    ensures said { said.new ≡ sets said.old 0 (five (read_numbers (decode btf.now (length table.old)))) }
{
    let reading = reading_numbers(read(btf, table));
    put_five(said, reading);
    reading.number
}

// The types of a BTF that was read before, as the numbers of that reading say where they lie.
fn read_before<'a, 't>(btf: &'a [u8], table: &'t [u32], read: &[u64]) -> Types<'a, 't>
    ensures { lent result ≡ tab_view btf.now table.now (btf_of read.now) }
{
    Types {
        bytes: btf,
        table,
        btf: btf_from(read),
    }
}

// What stands at an id of a BTF that was read. Answers the kind, 0 for void and past the last id, and says beside it: the
// name's offset in the strings and its length, the size, the type referred to, how many entries.
#[unsafe(no_mangle)]
pub extern "C" fn leamugi_type(
    btf: &[u8],
    table: &[u32],
    read: &[u64],
    id: u32,
    said: &mut [u64],
) -> u32
    ensures number { result ≡ (type_numbers (lent_read btf table read) id).number }
    ensures said { said.new ≡ sets said.old 0 (five (type_numbers (lent_read btf table read) id)) }
{
    let found = type_numbers(&read_before(btf, table, read), id);
    put_five(said, found);
    found.number
}

// The k-th entry of a type. Answers its type id and says beside it: its name's offset in the strings and length, and its two
// words.
#[unsafe(no_mangle)]
pub extern "C" fn leamugi_entry(
    btf: &[u8],
    table: &[u32],
    read: &[u64],
    id: u32,
    k: u32,
    said: &mut [u64],
) -> u32
    ensures number { result ≡ (entry_numbers (lent_read btf table read) id k).number }
    ensures said { said.new ≡ sets said.old 0 (five (entry_numbers (lent_read btf table read) id k)) }
{
    let entry = entry_numbers(&read_before(btf, table, read), id, k);
    put_five(said, entry);
    entry.number
}

// Applies the records to the function's instructions, in order up to the first refusal, between two BTFs that were read
// before. Answers document 01's number and says beside it how many records were applied and what the number returns.
#[unsafe(no_mangle)]
pub extern "C" fn leamugi_relocate_read(
    local: &[u8],
    ltable: &[u32],
    lread: &[u64],
    target: &[u8],
    ttable: &[u32],
    tread: &[u64],
    insns: &mut [u8],
    section: u64,
    records: &[u8],
    said: &mut [u64],
) -> u32
    ensures number { result ≡ (said_numbers
        (relocate_read (lent_read local ltable lread) (lent_read target ttable tread) insns.old section records.now).said).number }
    ensures insns { insns.new ≡ (relocate_read (lent_read local ltable lread) (lent_read target ttable tread) insns.old section
        records.now).insns }
    ensures said { said.new ≡ sets said.old 0 (five (said_numbers
        (relocate_read (lent_read local ltable lread) (lent_read target ttable tread) insns.old section records.now).said)) }
{
    let s = relocate_read(
        &read_before(local, ltable, lread),
        &read_before(target, ttable, tread),
        insns,
        section,
        records,
    );
    let ended = ending_numbers(s.applied, s.ending);
    put_five(said, ended);
    ended.number
}

// How many bytes a report takes.
fn report_length(reported: Result<u64, TooShort>) -> u64
    ensures { result ≡ length_of reported }
{
    match reported {
        Ok(written) => written,
        Err(short) => short.needed,
    }
}

// The report's length beside what was said.
fn with_report(n: Numbers, long: u64) -> Numbers
    ensures { result ≡ reported_numbers n long }
{
    let [a, b, c, _, _] = n.beside;
    said_numbers(n.number, a, b, c, long, 0)
}

// The same, with the report of section 9 into a lent buffer; nothing is written to it where it is too short. Says the
// report's length too.
#[unsafe(no_mangle)]
pub extern "C" fn leamugi_relocate_reported(
    local: &[u8],
    ltable: &[u32],
    lread: &[u64],
    target: &[u8],
    ttable: &[u32],
    tread: &[u64],
    insns: &mut [u8],
    section: u64,
    records: &[u8],
    said: &mut [u64],
    out: &mut [u8],
) -> u32
    ensures number { result ≡ (said_numbers
        (relocate_read (lent_read local ltable lread) (lent_read target ttable tread) insns.old section records.now).said).number }
    ensures insns { insns.new ≡ (relocate_read (lent_read local ltable lread) (lent_read target ttable tread) insns.old section
        records.now).insns }
    ensures said { said.new ≡ sets said.old 0
        (reported_five (lent_read local ltable lread) (lent_read target ttable tread) insns.old section records.now out.old) }
    ensures report { out.new ≡ holding
        (report_of (lent_read local ltable lread) (lent_read target ttable tread) insns.old section records.now) out.old }
{
    let l = read_before(local, ltable, lread);
    let t = read_before(target, ttable, tread);
    let s = relocate_read(&l, &t, insns, section, records);
    let n = ending_numbers(s.applied, s.ending);
    let long = report_length(report(&l, &t, section, records, s, out));
    put_five(said, with_report(n, long));
    n.number
}
