//! Ends of runs: statuses and lines.

use crate::rows::{out_of_memory, text_of};
use obq_base::Report;
use obq_ends::{link_line, report_line, status_of};
use obq_io::MemSink;
use std::alloc::Global;
use std::io;

/// The room of a sink, in bytes.
const ROOM: u32 = 200;

fn number(word: Option<&str>) -> u32 {
    word.unwrap_or("").parse::<u32>().unwrap_or(0)
}

/// The report that a row tells: how many threads ended, raised, wait and have used up their turns.
fn report_of(row: &str) -> Report {
    let mut words = row.split(' ');
    Report {
        ended: number(words.next()),
        raised: number(words.next()),
        waiting: number(words.next()),
        spent: number(words.next()),
    }
}

/// Reports, a line each, with the status and the line of each.
pub fn print_reports(rt: &impl Print, alloc: Global, rows: &str) -> io::Result<()> {
    for row in rows.trim_end_matches('\n').split('\n') {
        let report = report_of(row);
        let status = status_of(report);
        let mut out = MemSink::new(alloc, ROOM).map_err(out_of_memory)?;
        let written = report_line(report).write_to(&mut out);
        let line = text_of(out.bytes());
        println!(rt; "{row}  =>  status {status}, {written:?} {line:?}")?;
    }
    Ok(())
}

/// The line of a link, to a sink that has room for it, and to one that hasn't.
pub fn print_links(rt: &impl Print, alloc: Global) -> io::Result<()> {
    let line = link_line(b"Alpha", b"*", u64::MAX, 0);
    for room in [ROOM, 7] {
        let mut out = MemSink::new(alloc, room).map_err(out_of_memory)?;
        let written = line.write_to(&mut out);
        let text = text_of(out.bytes());
        println!(rt; "a link, {room} bytes of room  =>  {written:?} {text:?}")?;
    }
    Ok(())
}
