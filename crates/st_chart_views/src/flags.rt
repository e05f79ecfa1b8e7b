//! What is true of which number.

/// Makes it true of a number. Whether that is news; not of one that is not there.
pub(crate) fn set(flags: &mut [bool], number: u32) -> bool {
    match flags.get_mut(number as usize) {
        Some(flag) if !*flag => {
            *flag = true;
            true
        }
        _ => false,
    }
}
