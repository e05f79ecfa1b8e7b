//! What one line of a script says.
ghost use Rattle.st_door.specs.declared.line.Line.TheVariants as line;
ghost use Rattle.std.specs.Prelude.{◌≡◌, ◌&&◌, ◌∷◌, [], IfOk, map, Some, None, if◌then◌else◌};
ghost use Rattle.st_door.specs.WordForms.{is_name};
ghost use Rattle.st_door.specs.Grammar.{line_of, command_of, is_comment};
ghost use Rattle.st_door.specs.Grammar.{new_of, button_of, show_of, at_of, stop_of, remove_of, length_of, relay_of, names_of};

use crate::lines::words;
use crate::word_forms::{digits_of, is_digits, is_name, number_of};
use st_doors::Digits;
use st_events::{PlainText, Reason};
use std::alloc::{AllocError, Global};
use std::str;

/// How many bytes a line may have.
pub const LINE_LIMIT: usize = 256;

/// How many digits a code may have.
const CODE_DIGITS: usize = 16;

/// How many digits a reason may have.
const REASON_DIGITS: usize = 10;

/// How many digits a moment may have.
const MOMENT_DIGITS: usize = 20;

/// What a line says.
#[derive(Drop)]
pub enum Line {
    /// Nothing: a line without words, or a comment.
    Blank,
    /// Nothing that has a form.
    Malformed,
    /// Start a door.
    New {
        name: PlainText,
        code: Digits,
    },
    /// Press a button.
    Button {
        name: PlainText,
        digit: u8,
    },
    /// Print a door's status.
    Show {
        name: PlainText,
    },
    /// Let time pass up to a moment, in milliseconds.
    At {
        moment: u64,
    },
    /// Stop a door.
    Stop {
        name: PlainText,
        reason: Reason,
    },
    /// Take out a door that has ended.
    Remove {
        name: PlainText,
    },
    /// Ask a door how long its code is.
    Length {
        name: PlainText,
    },
    /// Have a door send a button to another, or to itself.
    Relay {
        name: PlainText,
        target: PlainText,
        digit: u8,
    },
    /// Print the names of the doors.
    Names,
}

fn is_comment(verb: &[u8]) -> bool
    ensures { result ≡ is_comment verb.now }
{
    matches!(verb, [b'#', ..])
}

fn name_of(alloc: Global, word: &[u8]) -> Result<Option<PlainText>, AllocError>
    ensures { IfOk result (λ name. name ≡ (if is_name word.now then Some word.now else None)) }
{
    if !is_name(word) {
        return Ok(None);
    }
    match str::from_utf8(word) {
        Ok(text) => Ok(Some(PlainText::copied(alloc, text)?)),
        Err(_) => Ok(None),
    }
}

fn new_line(alloc: Global, args: &[&[u8]]) -> Result<Line, AllocError>
    ensures { IfOk result (λ line. line ≡ new_of (map (λ arg. arg.now) args.now)) }
{
    let [word, code] = args else {
        return Ok(Line::Malformed);
    };
    if !is_digits(CODE_DIGITS, code) {
        return Ok(Line::Malformed);
    }
    let Some(name) = name_of(alloc, word)? else {
        return Ok(Line::Malformed);
    };
    let code = digits_of(alloc, code)?;
    Ok(Line::New { name, code })
}

fn button_line(alloc: Global, args: &[&[u8]]) -> Result<Line, AllocError>
    ensures { IfOk result (λ line. line ≡ button_of (map (λ arg. arg.now) args.now)) }
{
    let [word, [digit @ b'0'..=b'9']] = args else {
        return Ok(Line::Malformed);
    };
    let Some(name) = name_of(alloc, word)? else {
        return Ok(Line::Malformed);
    };
    Ok(Line::Button {
        name,
        digit: *digit - b'0',
    })
}

fn show_line(alloc: Global, args: &[&[u8]]) -> Result<Line, AllocError>
    ensures { IfOk result (λ line. line ≡ show_of (map (λ arg. arg.now) args.now)) }
{
    let [word] = args else {
        return Ok(Line::Malformed);
    };
    let Some(name) = name_of(alloc, word)? else {
        return Ok(Line::Malformed);
    };
    Ok(Line::Show { name })
}

fn at_line(args: &[&[u8]]) -> Line
    ensures { result ≡ at_of (map (λ arg. arg.now) args.now) }
{
    let [moment] = args else {
        return Line::Malformed;
    };
    match number_of(MOMENT_DIGITS, u64::MAX, moment) {
        Some(moment) => Line::At { moment },
        None => Line::Malformed,
    }
}

fn stop_line(alloc: Global, args: &[&[u8]]) -> Result<Line, AllocError>
    ensures { IfOk result (λ line. line ≡ stop_of (map (λ arg. arg.now) args.now)) }
{
    let [word, reason] = args else {
        return Ok(Line::Malformed);
    };
    let Some(reason) = number_of(REASON_DIGITS, Reason::MAX as u64, reason) else {
        return Ok(Line::Malformed);
    };
    let Some(name) = name_of(alloc, word)? else {
        return Ok(Line::Malformed);
    };
    Ok(Line::Stop {
        name,
        reason: reason as Reason,
    })
}

fn remove_line(alloc: Global, args: &[&[u8]]) -> Result<Line, AllocError>
    ensures { IfOk result (λ line. line ≡ remove_of (map (λ arg. arg.now) args.now)) }
{
    let [word] = args else {
        return Ok(Line::Malformed);
    };
    let Some(name) = name_of(alloc, word)? else {
        return Ok(Line::Malformed);
    };
    Ok(Line::Remove { name })
}

fn length_line(alloc: Global, args: &[&[u8]]) -> Result<Line, AllocError>
    ensures { IfOk result (λ line. line ≡ length_of (map (λ arg. arg.now) args.now)) }
{
    let [word] = args else {
        return Ok(Line::Malformed);
    };
    let Some(name) = name_of(alloc, word)? else {
        return Ok(Line::Malformed);
    };
    Ok(Line::Length { name })
}

fn relay_named(alloc: Global, word: &[u8], aim: &[u8], digit: u8) -> Result<Line, AllocError>
    ensures { IfOk result (λ said. said ≡ (if is_name word.now && is_name aim.now then line.Relay word.now aim.now digit else line.Malformed)) }
{
    let Some(name) = name_of(alloc, word)? else {
        return Ok(Line::Malformed);
    };
    let Some(target) = name_of(alloc, aim)? else {
        return Ok(Line::Malformed);
    };
    Ok(Line::Relay {
        name,
        target,
        digit,
    })
}

fn relay_digit(alloc: Global, word: &[u8], aim: &[u8], digit: &[u8]) -> Result<Line, AllocError>
    ensures { IfOk result (λ said. said ≡ relay_of (word.now ∷ aim.now ∷ digit.now ∷ [])) }
{
    let [digit @ b'0'..=b'9'] = digit else {
        return Ok(Line::Malformed);
    };
    relay_named(alloc, word, aim, *digit - b'0')
}

fn relay_line(alloc: Global, args: &[&[u8]]) -> Result<Line, AllocError>
    ensures { IfOk result (λ line. line ≡ relay_of (map (λ arg. arg.now) args.now)) }
{
    let [word, aim, digit] = args else {
        return Ok(Line::Malformed);
    };
    relay_digit(alloc, word, aim, digit)
}

fn names_line(args: &[&[u8]]) -> Line
    ensures { result ≡ names_of (map (λ arg. arg.now) args.now) }
{
    match args {
        [] => Line::Names,
        _ => Line::Malformed,
    }
}

fn command(alloc: Global, verb: &[u8], args: &[&[u8]]) -> Result<Line, AllocError>
    ensures { IfOk result (λ line. line ≡ command_of verb.now (map (λ arg. arg.now) args.now)) }
{
    if is_comment(verb) {
        Ok(Line::Blank)
    } else if verb == b"new".as_slice() {
        new_line(alloc, args)
    } else if verb == b"button".as_slice() {
        button_line(alloc, args)
    } else if verb == b"show".as_slice() {
        show_line(alloc, args)
    } else if verb == b"at".as_slice() {
        Ok(at_line(args))
    } else if verb == b"stop".as_slice() {
        stop_line(alloc, args)
    } else if verb == b"remove".as_slice() {
        remove_line(alloc, args)
    } else if verb == b"length".as_slice() {
        length_line(alloc, args)
    } else if verb == b"relay".as_slice() {
        relay_line(alloc, args)
    } else if verb == b"names".as_slice() {
        Ok(names_line(args))
    } else {
        Ok(Line::Malformed)
    }
}

/// What the bytes of a line say, where its carriage return is dropped already.
pub fn read_line(alloc: Global, bytes: &[u8]) -> Result<Line, AllocError>
    ensures { IfOk result (λ line. line ≡ line_of bytes.now) }
{
    if LINE_LIMIT < bytes.len() {
        return Ok(Line::Malformed);
    }
    let words = words(alloc, bytes)?;
    match words.split_first() {
        Some((verb, args)) => command(alloc, verb, args),
        None => Ok(Line::Blank),
    }
}
