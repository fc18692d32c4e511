//! Parts of texts that are cut anywhere.

use file_parts::lines_between;
use placed_containers::Places;
use std::alloc::Global;
use std::io::{self, Read};
use std::process::Abort;

static TEXTS: [&str; 6] = ["", "\n", "ab\ncd\nef", "ab\ncd\n", "\n\na\n\n", "one"];

/// Two places of `ab`, `cd` and `ef`, each a line, and the lines that begin between them.
static PARTS: [(u64, u64, &str); 8] = [
    (0, 1, "ab\n"),
    (1, 3, ""),
    (1, 4, "cd\n"),
    (3, 6, "cd\n"),
    (2, 7, "cd\nef"),
    (4, 6, ""),
    (6, 8, "ef"),
    (7, 9, ""),
];

/// The lines of a text that begin between two places, behind those of other parts.
fn read_part(alloc: Global, text: &str, from: u64, to: u64, lines: &mut String) -> io::Result<()> {
    let of = text.len() as u64;
    let mut part = lines_between(alloc, &text.as_bytes(), Places { from, to, of })?;
    part.read_to_string(lines)?;
    Ok(())
}

/// Whether parts that are cut at two places are the text.
fn is_whole<R: Abort>(rt: &R, alloc: Global, text: &str, from: u64, to: u64) -> io::Result<()> {
    let mut lines = String::new(alloc);
    read_part(alloc, text, 0, from, &mut lines)?;
    read_part(alloc, text, from, to, &mut lines)?;
    read_part(alloc, text, to, text.len() as u64, &mut lines)?;
    assert!(rt; lines.as_str() == text);
    Ok(())
}

#[test]
fn parts_have_each_line_once(rt: HostRuntime) -> io::Result<()> {
    let alloc = rt.alloc();
    for text in &TEXTS {
        let of = text.len() as u64;
        for to in 0..=of {
            for from in 0..=to {
                is_whole(&rt, alloc, text, from, to)?;
            }
        }
    }
    for &(from, to, wanted) in &PARTS {
        let mut lines = String::new(alloc);
        read_part(alloc, "ab\ncd\nef", from, to, &mut lines)?;
        assert!(&rt; lines.as_str() == wanted);
    }
    Ok(())
}
