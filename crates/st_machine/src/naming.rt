//! Names in lines of events, and what is told where there is none of a name.

use crate::page::Page;
use st_chart::Names;

/// How many bytes a machine's name may have.
const NAME_LIMIT: usize = 64;

/// How many names are told where one is wrong.
const TOLD_NAMES: usize = 8;

/// Says whether a machine may have this name.
pub(crate) fn is_name(text: &str) -> bool {
    let bytes = text.as_bytes();
    let begins = bytes.first().is_some_and(u8::is_ascii_alphabetic);
    let goes_on = bytes.iter().all(|byte| byte.is_ascii_alphanumeric()
        || *byte == b'_'
        || *byte == b'-');
    begins && goes_on && bytes.len() <= NAME_LIMIT
}

/// Tells that there is no symbol of a name, and which there are: so many of the names.
pub(crate) fn tell_no_symbol(name: &str, names: &Names, count: usize, page: &mut Page) {
    page.begin_fault();
    page.put("no symbol \"");
    page.put(name);
    page.put("\"");
    page.put(match count {
        0 => "; there is none",
        1 => "; there is ",
        _ => "; there are ",
    });
    for place in 0..count.min(TOLD_NAMES) {
        page.put(if place == 0 { "\"" } else { ", \"" });
        if let Ok(number) = u32::try_from(place) {
            page.put(names.name(number));
        }
        page.put("\"");
    }
    if count > TOLD_NAMES {
        page.put(" .. and ");
        page.put_number((count - TOLD_NAMES) as u64);
        page.put(" more");
    }
    page.end_fault();
}
