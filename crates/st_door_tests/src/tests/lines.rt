//! How a script is cut into lines and words, and words that have no form.

use super::host::Host;
use super::streams::{all_show, prints, shows};

/// What a script of one line prints that is malformed.
const MALFORMED: &str = "line 1 malformed\n";

#[test]
fn a_tab_parts_no_words(rt: HostRuntime) {
    static SCRIPTS: [&[u8]; 5] = [b"show\ta", b"new\ta 1", b"new a\t1", b"names\t", b"\t"];
    let rt = Host::new(rt);
    all_show(&rt, &SCRIPTS, MALFORMED, 1);
}

#[test]
fn bytes_above_127_stand_in_comments_alone(rt: HostRuntime) {
    static SCRIPTS: [&[u8]; 7] = [
        b"\x80",
        b"\xff names",
        b"new \xc3\xa4 1",
        b"new a\xff 1",
        b"new a \xb1",
        b"at \xb1",
        b"names\xa0",
    ];
    let rt = Host::new(rt);
    all_show(&rt, &SCRIPTS, MALFORMED, 1);
}

#[test]
fn bytes_above_127_may_stand_in_comments(rt: HostRuntime) {
    let rt = Host::new(rt);
    shows(&rt, b" # \x80\xc3\xa4\xff", "", 0);
}

#[test]
fn a_name_begins_with_a_small_letter(rt: HostRuntime) {
    static SCRIPTS: [&[u8]; 5] = [
        b"new Front 1",
        b"new fronT 1",
        b"new 1a 1",
        b"new _ 1",
        b"new - 1",
    ];
    let rt = Host::new(rt);
    all_show(&rt, &SCRIPTS, MALFORMED, 1);
}

#[test]
fn each_word_has_its_form(rt: HostRuntime) {
    static SCRIPTS: [&[u8]; 10] = [
        b"at 018446744073709551615",
        b"new abcdefghijklmnopqrstuvwxyz0123456 1",
        b"new a 01234567890123456",
        b"button a +1",
        b"new a",
        b"length",
        b"length a b",
        b"length A",
        b"length 1",
        b"Length a",
    ];
    let rt = Host::new(rt);
    all_show(&rt, &SCRIPTS, MALFORMED, 1);
}

#[test]
fn a_line_ends_with_one_carriage_return(rt: HostRuntime) {
    static SCRIPTS: [&[u8]; 2] = [b"names\r\n", b"names\r"];
    let rt = Host::new(rt);
    all_show(&rt, &SCRIPTS, "names\n", 0);
}

#[test]
fn a_line_ends_with_one_carriage_return_at_most(rt: HostRuntime) {
    static SCRIPTS: [&[u8]; 4] = [b"names\r\r\n", b"names\r\r", b"\r\r\n", b"names\r \n"];
    let rt = Host::new(rt);
    all_show(&rt, &SCRIPTS, MALFORMED, 1);
}

#[test]
fn a_last_line_without_a_line_feed_counts(rt: HostRuntime) {
    let rt = Host::new(rt);
    shows(&rt, b"names\nshow a", "names\nline 2 refused 8\n", 1);
}

#[test]
fn a_last_line_may_be_a_carriage_return(rt: HostRuntime) {
    let rt = Host::new(rt);
    shows(&rt, b"names\n\r", "names\n", 0);
}

/// Each script is refused at its last line, which tells how many lines stand before it.
#[test]
fn only_an_empty_last_piece_is_no_line(rt: HostRuntime) {
    static ROWS: [(&[u8], &str); 7] = [
        (b"show a", "line 1 refused 8\n"),
        (b"show a\n", "line 1 refused 8\n"),
        (b"\nshow a", "line 2 refused 8\n"),
        (b"\r\nshow a", "line 2 refused 8\n"),
        (b"names\nshow a", "names\nline 2 refused 8\n"),
        (b"names\n\r\nshow a", "names\nline 3 refused 8\n"),
        (b"names\n\nshow a", "names\nline 3 refused 8\n"),
    ];
    let rt = Host::new(rt);
    for (script, output) in &ROWS {
        prints(&rt, rt.alloc(), script, output, 1);
    }
    rt.end();
}
