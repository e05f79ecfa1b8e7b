//! Tests of st_requests: each call once with memory at hand, and all of them where one allocation is refused.
ghost use Rattle.std.specs.Prelude.{◌≡◌, [], vec_capacity};

use super::host::{Host, got, holds, same};
use st_events::{CopyContent, MachineId, PlainList, Reason, Replies, SmallList, Tag};
use st_requests::{Collected, Held, Request, RequestState, Requests};
use std::alloc::{AllocError, Global};
use std::process::Abort;

/// A call of the requests to one machine, by the number of a request, and what it is to answer, which stands last.
enum Call {
    /// A request is opened.
    Open(u64),
    /// A request is taken back.
    Withdraw(u64),
    /// The machine stops, for this reason.
    Close(Reason),
    /// A request is answered, and the reply is taken or not.
    Answer(u64, u32, bool),
    /// What is kept for a request is collected.
    Collect(u64, Collected<u32>),
    /// What is held for a request, and the reply that is kept.
    Show(u64, Option<Held>, Option<u32>),
    /// The replies that are kept for the first eight requests.
    Keep(&'static [Option<u32>; 8]),
}

/// The machine to which the requests are made.
const MACHINE: MachineId = MachineId { slot: 0, serial: 1 };

/// The first request to it.
const FIRST: Tag = Tag {
    machine: MACHINE,
    request: 1,
};

/// The second request to it.
const SECOND: Tag = Tag {
    machine: MACHINE,
    request: 2,
};

/// The third request to it.
const THIRD: Tag = Tag {
    machine: MACHINE,
    request: 3,
};

/// A request to one machine.
fn tag(request: u64) -> Tag {
    Tag {
        machine: MACHINE,
        request,
    }
}

/// The replies that are kept for the first eight requests.
fn replies(requests: &Requests<u32>) -> [Option<u32>; 8] {
    let mut replies = [None; 8];
    for (reply, request) in replies.iter_mut().zip(1..9) {
        *reply = requests.peek(tag(request)).copied();
    }
    replies
}

/// Looks at the replies that are kept for the first eight requests.
fn keeps(rt: &impl Abort, requests: &Requests<u32>, wanted: &[Option<u32>; 8]) {
    same(rt, "the replies that are kept", &replies(requests), wanted);
}

/// Copies numbers.
#[derive(Drop)]
struct Numbers;

impl CopyContent<u32> for Numbers {
    fn copy_of(&self, _alloc: Global, content: &u32) -> Result<u32, AllocError> {
        Ok(*content)
    }
}

/// What is held for each tag. Where memory was refused, nothing has changed, and it is listed again.
fn listed(rt: &Host<impl Abort>, requests: &Requests<u32>) -> PlainList<(Tag, Held)> {
    if let Ok(list) = requests.list() {
        return list;
    }
    rt.retry();
    got(rt, "one allocation alone is refused", requests.list())
}

/// A copy of the requests. Where memory was refused, nothing has changed, and they are copied again.
fn copied(rt: &Host<impl Abort>, requests: &Requests<u32>) -> PlainList<Request<u32>> {
    if let Ok(copy) = requests.copy(&Numbers) {
        return copy;
    }
    rt.retry();
    let copy = requests.copy(&Numbers);
    got(rt, "one allocation alone is refused", copy)
}

/// Opens a request. A call that finds no memory changes nothing that can be read, and is made again.
fn open(rt: &Host<impl Abort>, requests: &mut Requests<u32>, tag: Tag) {
    holds(rt, "nothing is held yet", requests.held(tag).is_none());
    let before = replies(requests);
    if requests.open(tag).is_err() {
        keeps(rt, requests, &before);
        rt.retry();
        got(rt, "one allocation alone is refused", requests.open(tag));
    }
}

/// Answers a request, and looks whether the reply is taken.
fn answer(rt: &impl Abort, requests: &mut Requests<u32>, tag: Tag, content: u32, taken: bool) {
    let was_open = requests.answer(tag, content);
    holds(rt, "the reply is taken", was_open == taken);
}

/// Collects what is kept for a request.
fn collect(rt: &impl Abort, requests: &mut Requests<u32>, tag: Tag, wanted: &Collected<u32>) {
    same(rt, "what is collected", &requests.collect(tag), wanted);
}

/// Looks at what is held for a request, and at the reply that is kept.
fn show(
    rt: &impl Abort,
    requests: &Requests<u32>,
    tag: Tag,
    held: Option<Held>,
    reply: Option<u32>,
) {
    same(rt, "what is held", &requests.held(tag), &held);
    same(rt, "what is kept", &requests.peek(tag).copied(), &reply);
}

/// Makes a call, and looks at its answer.
fn make(rt: &Host<impl Abort>, requests: &mut Requests<u32>, call: &Call) {
    match call {
        Call::Open(request) => open(rt, requests, tag(*request)),
        Call::Withdraw(request) => requests.withdraw(tag(*request)),
        Call::Close(reason) => requests.close(*reason),
        Call::Answer(request, content, taken) => {
            answer(rt, requests, tag(*request), *content, *taken);
        }
        Call::Collect(request, wanted) => collect(rt, requests, tag(*request), wanted),
        Call::Show(request, held, reply) => show(rt, requests, tag(*request), *held, *reply),
        Call::Keep(wanted) => keeps(rt, requests, wanted),
    }
}

/// Makes calls one after the other, and looks at their answers.
fn make_all(rt: &Host<impl Abort>, requests: &mut Requests<u32>, calls: &[Call]) {
    for call in calls {
        make(rt, requests, call);
    }
}

/// The requests to a machine, where none is opened yet.
fn begun(rt: &Host<impl Abort + AllocGlobal>) -> Box<Requests<u32>> {
    rt.boxed(rt.alloc(), Requests::new(rt.alloc()))
}

/// Makes calls one after the other, from no request on, and looks at their answers.
fn answer_all(rt: &Host<impl Abort + AllocGlobal>, calls: &[Call]) {
    let mut requests = begun(rt);
    make_all(rt, &mut requests, calls);
}

/// A list that is reserved for so many tags. Where memory was refused, it is asked for again.
fn with_reserved(rt: &Host<impl Abort>, alloc: Global, count: usize) -> Vec<Tag>
    ensures empty { result.items ≡ [] }
    ensures reserved { vec_capacity result ≡ count }
{
    if let Ok(tags) = Vec::with_capacity(alloc, count) {
        return tags;
    }
    rt.retry();
    let tags = Vec::with_capacity(alloc, count);
    got(rt, "one allocation alone is refused", tags)
}

#[test]
fn each_call_answers(rt: HostRuntime) {
    static CALLS: [Call; 17] = [
        Call::Open(1),
        Call::Open(2),
        Call::Collect(1, Collected::Waiting),
        Call::Collect(3, Collected::Gone),
        Call::Show(1, Some(Held::Open), None),
        Call::Show(3, None, None),
        Call::Answer(1, 50, true),
        Call::Show(1, Some(Held::Reply), Some(50)),
        Call::Show(2, Some(Held::Open), None),
        Call::Collect(1, Collected::Reply(50)),
        Call::Collect(1, Collected::Gone),
        Call::Answer(1, 60, false),
        Call::Close(9),
        Call::Answer(2, 60, false),
        Call::Show(2, Some(Held::Stopped(9)), None),
        Call::Collect(2, Collected::Stopped(9)),
        Call::Collect(2, Collected::Gone),
    ];
    let rt = Host::new(rt);
    answer_all(&rt, &CALLS);
    rt.end();
}

#[test]
fn a_reply_outlives_the_machine(rt: HostRuntime) {
    static CALLS: [Call; 17] = [
        Call::Open(1),
        Call::Open(2),
        Call::Open(3),
        Call::Answer(2, 50, true),
        Call::Answer(2, 60, false),
        Call::Answer(4, 70, false),
        Call::Show(2, Some(Held::Reply), Some(50)),
        Call::Show(4, None, None),
        Call::Close(9),
        Call::Close(8),
        Call::Keep(&[None, Some(50), None, None, None, None, None, None]),
        Call::Collect(1, Collected::Stopped(9)),
        Call::Collect(2, Collected::Reply(50)),
        Call::Collect(3, Collected::Stopped(9)),
        Call::Collect(1, Collected::Gone),
        Call::Collect(2, Collected::Gone),
        Call::Collect(3, Collected::Gone),
    ];
    let rt = Host::new(rt);
    answer_all(&rt, &CALLS);
    rt.end();
}

#[test]
fn another_machine_has_requests_of_its_own(rt: HostRuntime) {
    let rt = Host::new(rt);
    let mut requests = begun(&rt);
    let elsewhere = Tag {
        machine: MachineId { slot: 1, serial: 1 },
        request: 1,
    };
    let later = Tag {
        machine: MachineId { slot: 0, serial: 2 },
        request: 1,
    };
    open(&rt, &mut requests, tag(1));
    for other in [elsewhere, later] {
        answer(&rt, &mut requests, other, 60, false);
    }
    for other in [elsewhere, later] {
        collect(&rt, &mut requests, other, &Collected::Gone);
    }
    collect(&rt, &mut requests, tag(1), &Collected::Waiting);
    rt.end();
}

#[test]
fn a_refused_call_changes_nothing(rt: HostRuntime) {
    static CALLS: [Call; 18] = [
        Call::Open(1),
        Call::Open(2),
        Call::Answer(1, 50, true),
        Call::Close(9),
        Call::Open(3),
        Call::Open(4),
        Call::Answer(3, 70, true),
        Call::Open(5),
        Call::Open(6),
        Call::Keep(&[Some(50), None, Some(70), None, None, None, None, None]),
        Call::Collect(4, Collected::Waiting),
        Call::Collect(5, Collected::Waiting),
        Call::Collect(6, Collected::Waiting),
        Call::Collect(2, Collected::Stopped(9)),
        Call::Collect(1, Collected::Reply(50)),
        Call::Collect(3, Collected::Reply(70)),
        Call::Collect(4, Collected::Waiting),
        Call::Collect(1, Collected::Gone),
    ];
    let rt = Host::new(rt);
    answer_all(&rt, &CALLS);
    rt.end();
}

#[test]
fn a_request_is_taken_back(rt: HostRuntime) {
    static CALLS: [Call; 14] = [
        Call::Open(1),
        Call::Open(2),
        Call::Open(3),
        Call::Answer(2, 50, true),
        Call::Withdraw(3),
        Call::Collect(3, Collected::Gone),
        Call::Answer(3, 60, false),
        Call::Withdraw(4),
        Call::Show(2, Some(Held::Reply), Some(50)),
        Call::Collect(1, Collected::Waiting),
        Call::Withdraw(2),
        Call::Collect(2, Collected::Gone),
        Call::Answer(1, 70, true),
        Call::Collect(1, Collected::Reply(70)),
    ];
    let rt = Host::new(rt);
    answer_all(&rt, &CALLS);
    rt.end();
}

/// Replies to four requests, which lie in the list itself.
fn four_replies(rt: &impl Abort, alloc: Global, rows: [(u64, u32); 4]) -> Replies<u32> {
    let mut answers = SmallList::new(alloc);
    for (request, content) in rows {
        let pushed = answers.push((tag(request), content));
        got(rt, "four take no memory", pushed);
    }
    answers
}

/// Three requests are opened.
fn three_open(rt: &Host<impl Abort>, requests: &mut Requests<u32>) {
    for request in [1, 2, 3] {
        open(rt, requests, tag(request));
    }
}

/// Replies to three requests that are open: to the fourth none was opened, and the second is answered twice. Looks at
/// the tags of those that are taken, which stand behind another one, and at what is kept.
fn two_are_taken(rt: &Host<impl Abort>, requests: &mut Requests<u32>, alloc: Global) {
    static KEPT: [Option<u32>; 8] = [Some(70), Some(50), None, None, None, None, None, None];
    let mut taken = with_reserved(rt, alloc, 5);
    taken.push_reserved(tag(9));
    let answers = four_replies(rt, alloc, [(2, 50), (4, 60), (1, 70), (2, 80)]);
    holds(rt, "there are four", answers.len() == 4);
    requests.answer_all(answers, &mut taken);
    let wanted = [tag(9), tag(2), tag(1)];
    same(rt, "taken", &taken.as_slice(), &wanted.as_slice());
    keeps(rt, requests, &KEPT);
}

#[test]
fn replies_are_taken_in_order(rt: HostRuntime) {
    let rt = Host::new(rt);
    let mut requests = begun(&rt);
    three_open(&rt, &mut requests);
    two_are_taken(&rt, &mut requests, rt.alloc());
    collect(&rt, &mut requests, tag(3), &Collected::Waiting);
    collect(&rt, &mut requests, tag(4), &Collected::Gone);
    rt.end();
}

/// Looks at the list of what is held for each tag.
fn lists(rt: &Host<impl Abort>, requests: &Requests<u32>, wanted: &[(Tag, Held)]) {
    let list = listed(rt, requests);
    holds(rt, "what is held is listed", list.as_slice() == wanted);
}

/// Looks at the requests, and at a copy of them.
fn copies(rt: &Host<impl Abort>, requests: &Requests<u32>, wanted: &[Request<u32>]) {
    holds(rt, "the requests", requests.as_slice() == wanted);
    let copy = copied(rt, requests);
    holds(rt, "their copy", copy.as_slice() == wanted);
}

#[test]
fn what_is_held_is_listed_and_copied(rt: HostRuntime) {
    static OPEN: [(Tag, Held); 3] = [
        (FIRST, Held::Open),
        (SECOND, Held::Reply),
        (THIRD, Held::Open),
    ];
    static CLOSED: [(Tag, Held); 2] = [(FIRST, Held::Stopped(9)), (SECOND, Held::Reply)];
    static COPY: [Request<u32>; 2] = [
        Request {
            tag: FIRST,
            held: RequestState::Stopped(9),
        },
        Request {
            tag: SECOND,
            held: RequestState::Reply(50),
        },
    ];
    let rt = Host::new(rt);
    let mut requests = begun(&rt);
    three_open(&rt, &mut requests);
    answer(&rt, &mut requests, tag(2), 50, true);
    lists(&rt, &requests, &OPEN);
    requests.close(9);
    collect(&rt, &mut requests, tag(3), &Collected::Stopped(9));
    lists(&rt, &requests, &CLOSED);
    copies(&rt, &requests, &COPY);
    rt.end();
}
