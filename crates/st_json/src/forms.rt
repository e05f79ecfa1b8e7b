//! The forms of which the JSON of an entry is made.
ghost use Rattle.std.specs.Prelude.{◌≡◌, [], ◌∷◌, ◌++◌, List, map, length, slice_get, option_copied, IfOk, OnOk};
ghost use Rattle.serde_json.specs.Data.{boolean, string, put};
ghost use Rattle.serde_json.specs.View.{view, members_view};
ghost use Rattle.st_json.specs.Forms.{number_data, named_data, pair_data, list_data, option_data, result_data};

use crate::ContentJson;
use crate::writer::{Writer, Written};
use serde_json::{Map, Value};
use st_core::{OneInline, PlainList};
use st_trace::StateNames;
use std::alloc::AllocError;

impl<N, J> Written<N, J> for u64 {
    ghost data_is = { λ names contents number. number_data number };

    fn written(&self, _by: &Writer<'_, N, J>) -> Result<Value, AllocError> {
        Ok(Value::from(*self))
    }
}

impl<N, J> Written<N, J> for u32 {
    ghost data_is = { λ names contents number. number_data number };

    fn written(&self, _by: &Writer<'_, N, J>) -> Result<Value, AllocError> {
        Ok(Value::from(*self))
    }
}

impl<N, J> Written<N, J> for usize {
    ghost data_is = { λ names contents number. number_data number };

    fn written(&self, _by: &Writer<'_, N, J>) -> Result<Value, AllocError> {
        Ok(Value::from(*self))
    }
}

impl<N, J> Written<N, J> for bool {
    ghost data_is = { λ names contents fact. boolean fact };

    fn written(&self, _by: &Writer<'_, N, J>) -> Result<Value, AllocError> {
        Ok(Value::from(*self))
    }
}

/// A state, which is written as its name.
#[derive(Clone, Copy)]
pub(crate) struct StateIn<S> {
    pub state: S,
}

impl<S: Copy, N: StateNames<S>, J> Written<N, J> for StateIn<S> {
    ghost data_is = { λ names contents it. string (N.name_is names it.state) };

    fn written(&self, by: &Writer<'_, N, J>) -> Result<Value, AllocError> {
        Value::try_from_str(by.alloc, by.names.name(self.state))
    }
}

/// A content, which is written as its form says.
#[derive_where(Clone, Copy)]
pub(crate) struct ContentIn<'a, C> {
    pub content: &'a C,
}

impl<'a, C, N, J: ContentJson<C>> Written<N, J> for ContentIn<'a, C> {
    ghost data_is = { λ names contents it. J.json_is contents it.content.now };

    fn written(&self, by: &Writer<'_, N, J>) -> Result<Value, AllocError> {
        by.contents.json(by.alloc, self.content)
    }
}

/// Members of an object, and one more. They are given from the last key to the first.
pub(crate) fn with<T: Written<N, J>, N, J>(
    by: &Writer<'_, N, J>,
    mut members: Map<String, Value>,
    key: &str,
    value: &T,
) -> Result<Map<String, Value>, AllocError>
    ensures { IfOk result (λ more. members_view more.entries ≡ put key.now (T.data_is by.now.names.now by.now.contents.now value.now) (members_view members.entries)) }
{
    let value = value.written(by)?;
    serde_json::put(&mut members, by.alloc, key, value)?;
    Ok(members)
}

/// An object of one member: so a variant is written that has something.
pub(crate) fn wrapped<N, J>(
    by: &Writer<'_, N, J>,
    name: &str,
    value: Value,
) -> Result<Value, AllocError>
    ensures { IfOk result (λ wrapped. view wrapped ≡ named_data name.now (view value)) }
{
    let mut members = Map::new(by.alloc);
    serde_json::put(&mut members, by.alloc, name, value)?;
    Ok(Value::Object(members))
}

/// The variant of a name that has one value.
pub(crate) fn named<T: Written<N, J>, N, J>(
    by: &Writer<'_, N, J>,
    name: &str,
    value: &T,
) -> Result<Value, AllocError>
    ensures { IfOk result (λ named. view named ≡ named_data name.now (T.data_is by.now.names.now by.now.contents.now value.now)) }
{
    wrapped(by, name, value.written(by)?)
}

/// Adds an item to others.
fn add<T: Written<N, J>, N, J>(
    by: &Writer<'_, N, J>,
    items: &mut Vec<Value>,
    value: &T,
) -> Result<(), AllocError>
    ensures { OnOk result (map view items.new.items ≡ map view items.old.items ++ T.data_is by.now.names.now by.now.contents.now value.now ∷ []) }
{
    let value = value.written(by)?;
    serde_json::push(items, value)
}

/// An array of two.
pub(crate) fn pair<T: Written<N, J>, U: Written<N, J>, N, J>(
    by: &Writer<'_, N, J>,
    first: &T,
    second: &U,
) -> Result<Value, AllocError>
    ensures { IfOk result (λ pair. view pair ≡ pair_data (T.data_is by.now.names.now by.now.contents.now first.now) (U.data_is by.now.names.now by.now.contents.now second.now)) }
{
    let mut items = Vec::new(by.alloc);
    add(by, &mut items, first)?;
    add(by, &mut items, second)?;
    Ok(Value::Array(items))
}

/// The variant of a name that has two values.
pub(crate) fn named_pair<T: Written<N, J>, U: Written<N, J>, N, J>(
    by: &Writer<'_, N, J>,
    name: &str,
    first: &T,
    second: &U,
) -> Result<Value, AllocError>
    ensures { IfOk result (λ named. view named ≡ named_data name.now (pair_data (T.data_is by.now.names.now by.now.contents.now first.now) (U.data_is by.now.names.now by.now.contents.now second.now))) }
{
    wrapped(by, name, pair(by, first, second)?)
}

impl<T: Written<N, J>, U: Written<N, J>, N, J> Written<N, J> for (T, U) {
    ghost data_is = { λ names contents it. pair_data (T.data_is names contents it.0) (U.data_is names contents it.1) };

    fn written(&self, by: &Writer<'_, N, J>) -> Result<Value, AllocError> {
        pair(by, &self.0, &self.1)
    }
}

impl<T: Written<N, J>, N, J> Written<N, J> for Option<T> {
    ghost data_is = { λ names contents it. option_data (T.data_is names contents) it };

    fn written(&self, by: &Writer<'_, N, J>) -> Result<Value, AllocError> {
        match self {
            Some(value) => value.written(by),
            None => Ok(Value::Null),
        }
    }
}

impl<T: Written<N, J>, E: Written<N, J>, N, J> Written<N, J> for Result<T, E> {
    ghost data_is = { λ names contents it. result_data (T.data_is names contents) (E.data_is names contents) it };

    fn written(&self, by: &Writer<'_, N, J>) -> Result<Value, AllocError> {
        match self {
            Ok(value) => named(by, "Ok", value),
            Err(error) => named(by, "Err", error),
        }
    }
}

/// A list whose elements are read by their places.
trait Listed<T> {
    // Its elements.
    ghost elements_are: { Self → List T };

    /// How many elements there are.
    fn count(&self) -> usize
        ensures { result ≡ length (elements_are self.now) };

    /// The element at a place.
    fn at(&self, place: usize) -> Option<&T>
        ensures { option_copied result ≡ slice_get (elements_are self.now) place };
}

impl<T> Listed<T> for PlainList<T> {
    ghost elements_are = { λ list. list };

    fn count(&self) -> usize {
        self.len()
    }

    fn at(&self, place: usize) -> Option<&T> {
        self.get(place)
    }
}

impl<T> Listed<T> for OneInline<T> {
    ghost elements_are = { λ list. list };

    fn count(&self) -> usize {
        self.len()
    }

    fn at(&self, place: usize) -> Option<&T> {
        self.get(place)
    }
}

/// An array of the elements of a list.
fn list<L: Listed<T>, T: Written<N, J>, N, J>(
    by: &Writer<'_, N, J>,
    elements: &L,
) -> Result<Value, AllocError>
    ensures { IfOk result (λ list. view list ≡ list_data (T.data_is by.now.names.now by.now.contents.now) (L.elements_are elements.now)) }
{
    let mut items = Vec::new(by.alloc);
    for place in 0..elements.count() {
        if let Some(element) = elements.at(place) {
            add(by, &mut items, element)?;
        }
    }
    Ok(Value::Array(items))
}

impl<T: Written<N, J>, N, J> Written<N, J> for PlainList<T> {
    ghost data_is = { λ names contents it. list_data (T.data_is names contents) it };

    fn written(&self, by: &Writer<'_, N, J>) -> Result<Value, AllocError> {
        list(by, self)
    }
}

impl<T: Written<N, J>, N, J> Written<N, J> for OneInline<T> {
    ghost data_is = { λ names contents it. list_data (T.data_is names contents) it };

    fn written(&self, by: &Writer<'_, N, J>) -> Result<Value, AllocError> {
        list(by, self)
    }
}
