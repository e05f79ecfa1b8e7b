//! A JSON text as a tree of parts that know where they stand.

use json::{Reader, Scratch, Token};
use std::alloc::{AllocError, Global};

/// How deep lists and objects nest at most.
const MOST_NESTED: usize = 64;

/// What a part of a JSON text is.
#[derive(Clone, Copy)]
pub(crate) enum Shape {
    Null,
    False,
    True,
    Number,
    Text,
    List,
    Object,
}

/// A part of a JSON text: a value, and the key under which it stands, if it is a member.
#[derive(Drop)]
pub(crate) struct Node<'a> {
    /// The key, and at which byte it begins. In a list there is none.
    pub(crate) key: &'a str,
    pub(crate) key_at: usize,
    /// At which byte the value begins.
    pub(crate) at: usize,
    pub(crate) shape: Shape,
    /// The text, or the number as it stands.
    pub(crate) text: &'a str,
    /// What is in a list, or the members of an object, in the order of the text.
    pub(crate) parts: Vec<Node<'a>>,
}

impl<'a> Node<'a> {
    /// The first member of a key.
    pub(crate) fn member(&self, key: &str) -> Option<&Node<'a>> {
        for part in &self.parts {
            if part.key == key {
                return Some(part);
            }
        }
        None
    }
}

/// Where in a JSON text the reader stood when it could not go on.
#[derive(Clone, Copy)]
pub(crate) enum Standing {
    /// Where the text's value was to begin.
    Beginning,
    /// In a list.
    List,
    /// In an object, where a member was to begin or the object to end.
    Object,
    /// Behind a key and its colon.
    Member,
    /// Behind a text that was to be a key.
    Key,
    /// Behind the text's value.
    End,
    /// At a list or an object that nests too deep.
    Deep,
}

/// Why a tree was not read.
#[derive(Clone, Copy)]
pub(crate) enum Broken {
    /// There is no memory.
    Memory,
    /// The text is no JSON from this byte on.
    Syntax(usize, Standing),
}

impl From<AllocError> for Broken {
    fn from(_cause: AllocError) -> Broken {
        Broken::Memory
    }
}

/// The shape of the value that a token begins, and its text.
fn begun(token: Option<Token<'_>>) -> Option<(Shape, &str)> {
    match token {
        Some(Token::BeginObject) => Some((Shape::Object, "")),
        Some(Token::BeginArray) => Some((Shape::List, "")),
        Some(Token::String(text)) => Some((Shape::Text, text)),
        Some(Token::Number(text)) => Some((Shape::Number, text)),
        Some(Token::Bool(true)) => Some((Shape::True, "")),
        Some(Token::Bool(false)) => Some((Shape::False, "")),
        Some(Token::Null) => Some((Shape::Null, "")),
        _ => None,
    }
}

/// Why no value begins with a token: it is a key, whose colon is out of place, or it begins none.
fn misplaced(token: Option<Token<'_>>, at: usize, behind: usize, standing: Standing) -> Broken {
    match (token, standing) {
        (Some(Token::Key(_)), Standing::Beginning) => Broken::Syntax(behind, Standing::End),
        (Some(Token::Key(_)), Standing::Member) => Broken::Syntax(behind, Standing::Object),
        (Some(Token::Key(_)), _) => Broken::Syntax(behind, standing),
        _ => Broken::Syntax(at, standing),
    }
}

/// Reads what is in a list or an object.
#[cycle(tree)]
fn fill<'a>(
    alloc: Global,
    reader: &mut Reader<'a>,
    depth: usize,
    node: &mut Node<'a>,
) -> Result<(), Broken> {
    let (Shape::List | Shape::Object) = node.shape else {
        return Ok(());
    };
    if depth == 0 {
        return Err(Broken::Syntax(node.at, Standing::Deep));
    }
    match node.shape {
        Shape::List => items(alloc, reader, depth - 1, &mut node.parts),
        _ => members(alloc, reader, depth - 1, &mut node.parts),
    }
}

/// Reads one value.
#[cycle(tree)]
fn value<'a>(
    alloc: Global,
    reader: &mut Reader<'a>,
    depth: usize,
    standing: Standing,
    key: (&'a str, usize),
) -> Result<Node<'a>, Broken> {
    let at = reader.offset();
    let token = reader.next();
    let Some((shape, text)) = begun(token) else {
        return Err(misplaced(token, at, reader.offset(), standing));
    };
    let mut node = Node {
        key: key.0,
        key_at: key.1,
        at,
        shape,
        text,
        parts: Vec::new(alloc),
    };
    match fill(alloc, reader, depth, &mut node) {
        Ok(()) => Ok(node),
        Err(broken) => Err(broken),
    }
}

/// Reads one value to the end of others.
#[cycle(tree)]
fn add<'a>(
    alloc: Global,
    reader: &mut Reader<'a>,
    depth: usize,
    standing: Standing,
    key: (&'a str, usize),
    parts: &mut Vec<Node<'a>>,
) -> Result<(), Broken> {
    match parts.push(value(alloc, reader, depth, standing, key)?) {
        Ok(()) => Ok(()),
        Err(_) => Err(Broken::Memory),
    }
}

/// Reads the values of a list, and its end.
#[cycle(tree)]
fn items<'a>(
    alloc: Global,
    reader: &mut Reader<'a>,
    depth: usize,
    parts: &mut Vec<Node<'a>>,
) -> Result<(), Broken> {
    for _ in 0..u64::MAX {
        if reader.take_end_array() {
            return Ok(());
        }
        add(alloc, reader, depth, Standing::List, ("", 0), parts)?;
    }
    Ok(())
}

/// Reads the members of an object, and its end.
#[cycle(tree)]
fn members<'a>(
    alloc: Global,
    reader: &mut Reader<'a>,
    depth: usize,
    parts: &mut Vec<Node<'a>>,
) -> Result<(), Broken> {
    for _ in 0..u64::MAX {
        let at = reader.offset();
        match reader.next() {
            Some(Token::Key(key)) => {
                add(alloc, reader, depth, Standing::Member, (key, at), parts)?;
            }
            Some(Token::EndObject) => return Ok(()),
            Some(Token::String(_)) => {
                return Err(Broken::Syntax(reader.offset(), Standing::Key));
            }
            _ => return Err(Broken::Syntax(at, Standing::Object)),
        }
    }
    Ok(())
}

/// Reads a text to a tree.
pub(crate) fn tree_of<'a>(
    alloc: Global,
    text: &'a str,
    scratch: &'a mut Scratch,
) -> Result<Node<'a>, Broken> {
    let mut reader = Reader::new(text, scratch)?;
    let node = value(
        alloc,
        &mut reader,
        MOST_NESTED,
        Standing::Beginning,
        ("", 0),
    )?;
    let at = reader.offset();
    match reader.next() {
        None => Ok(node),
        Some(_) => Err(Broken::Syntax(at, Standing::End)),
    }
}
