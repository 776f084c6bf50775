// The fixed lists of cases (oracle/README.md) through the public call: how many cases there are, how many give the expected
// block byte for byte, and which do not.
#![tactic(auto)]

use btf_accept::{Whole, accept};
use btf_view::Types;
use call_block::put_tail;
use call_relocate::relocate;
use call_report::report;
use rules::Said;
use std::fs::File;
use std::io;
use std::io::Read;
use word_read::{part, u32_at, u64_at};

// So many entries a case's BTF needs at most.
const ENTRIES: usize = 2048;

// So many bytes a part of a case has at most.
const PART: usize = 65536;

// So many of the cases that differ are named.
const SHOWN: u32 = 10;

// How many bytes the parts of a case have, and the function's section offset.
#[derive(Clone, Copy)]
struct Head {
    local: usize,
    target: usize,
    insns: usize,
    records: usize,
    section: u64,
    block: usize,
}

// What a case gives the call beside the instructions.
#[derive(Clone, Copy)]
struct Case<'a> {
    local: &'a [u8],
    target: &'a [u8],
    section: u64,
    records: &'a [u8],
}

// The types of a BTF that is accepted, by the table that the call has filled.
fn types_of<'a, 't>(bytes: &'a [u8], table: &'t [u32]) -> Option<Types<'a, 't>> {
    let Whole::Accepted(btf) = accept(bytes) else {
        return None;
    };
    Some(Types { bytes, table, btf })
}

// The report of a call; nothing where a BTF was refused.
fn put_report(case: Case, ltable: &[u32], ttable: &[u32], said: Said, out: &mut [u8]) -> u64 {
    let Some(local) = types_of(case.local, ltable) else {
        return 0;
    };
    let Some(target) = types_of(case.target, ttable) else {
        return 0;
    };
    match report(&local, &target, case.section, case.records, said, out) {
        Ok(written) => written,
        Err(short) => short.needed,
    }
}

// The block of a case: the public call, its report, the outcome, the instructions left.
fn put_block(case: Case, insns: &mut [u8], out: &mut [u8]) -> u64 {
    let mut ltable = [0u32; ENTRIES];
    let mut ttable = [0u32; ENTRIES];
    let said = relocate(
        case.local,
        &mut ltable,
        case.target,
        &mut ttable,
        insns,
        case.section,
        case.records,
    );
    let at = put_report(case, &ltable, &ttable, said, out);
    put_tail(out, at, said, insns)
}

// Fills a buffer; says how many bytes were there, fewer where the list ends: by `read_exact` that would be an error.
fn read_full(list: &mut File, buffer: &mut [u8]) -> io::Result<usize> {
    let mut done = 0;
    while done < buffer.len() {
        let n = list.read(&mut buffer[done..])?;
        if n == 0 {
            break;
        }
        done += n;
    }
    Ok(done)
}

// The bytes of a part, read into a buffer's front; nothing where the list ends early or the part is too long.
fn read_part<'a>(
    list: &mut File,
    buffer: &'a mut [u8],
    size: usize,
) -> io::Result<Option<&'a mut [u8]>> {
    if size > buffer.len() {
        return Ok(None);
    }
    let part = &mut buffer[..size];
    let n = read_full(list, part)?;
    Ok(if n == size { Some(part) } else { None })
}

// Whether a case gives the expected block.
fn gives(case: Case, insns: &mut [u8], block: &[u8]) -> bool {
    let mut out = [0u8; PART];
    let n = put_block(case, insns, &mut out);
    part(&out, 0, n as usize) == block
}

// The head of a case: how long its parts are. A list that ends here gives parts that cannot be read.
fn read_head(list: &mut File) -> io::Result<Head> {
    let mut head = [0xffu8; 32];
    read_part(list, &mut head, 32)?;
    Ok(Head {
        local: u32_at(&head, 0) as usize,
        target: u32_at(&head, 4) as usize,
        insns: u32_at(&head, 8) as usize,
        records: u32_at(&head, 12) as usize,
        section: u64_at(&head, 16),
        block: u32_at(&head, 24) as usize,
    })
}

// The next case of a list: whether it gives the expected block. One that cannot be read does not.
fn next_case(list: &mut File) -> io::Result<bool> {
    let head = read_head(list)?;
    let mut local = [0u8; PART];
    let mut target = [0u8; PART];
    let mut insns = [0u8; PART];
    let mut records = [0u8; PART];
    let mut block = [0u8; PART];
    let Some(local) = read_part(list, &mut local, head.local)? else {
        return Ok(false);
    };
    let Some(target) = read_part(list, &mut target, head.target)? else {
        return Ok(false);
    };
    let Some(insns) = read_part(list, &mut insns, head.insns)? else {
        return Ok(false);
    };
    let Some(records) = read_part(list, &mut records, head.records)? else {
        return Ok(false);
    };
    let Some(block) = read_part(list, &mut block, head.block)? else {
        return Ok(false);
    };
    let case = Case {
        local,
        target,
        section: head.section,
        records,
    };
    Ok(gives(case, insns, block))
}

// The cases of a list, one after the other: how many are equal. The first that differ are named.
fn replay(rt: &impl Print, list: &mut File, count: u32) -> io::Result<u32> {
    let mut equal: u32 = 0;
    for i in 0..count {
        if next_case(list)? {
            equal += 1;
        } else if i - equal < SHOWN {
            println!(rt; "different={i}")?;
        }
    }
    Ok(equal)
}

fn replay_list(rt: &HostRuntime, path: &str) -> io::Result<()> {
    let mut list = File::open(rt, path)?;
    let mut head = [0u8; 32];
    read_part(&mut list, &mut head, 32)?;
    let count = u32_at(&head, 8);
    let equal = replay(rt, &mut list, count)?;
    println!(rt; "{path} cases={count} equal={equal}")
}

fn main(rt: HostRuntime) -> io::Result<()> {
    replay_list(&rt, "crate.list")?;
    replay_list(&rt, "by-document-01.list")
}
