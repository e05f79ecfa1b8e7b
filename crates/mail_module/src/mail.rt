//! The module of a mailbox: it handles the lines of a small protocol.
ghost use Rattle.std.specs.Prelude.{◌≡◌, [], ◌∷◌, ◌++◌, IfOk};
ghost use Rattle.std.proofs.Common.{rules};
ghost use Rattle.st_events.specs.declared.outcome.Outcome.TheVariants.{KeepStateAndData, NextState};
ghost use Rattle.mail_module.specs.declared.answer.Answer.TheVariants.{Fine};
ghost use Rattle.mail_module.specs.declared.phase.Phase.TheVariants.{Named};
ghost use Rattle.mail_module.specs.Protocol.{init_of, handle_of, enters, enter_of, terminate_of, idle_runs, answers, keeps, closes, is_right, has_mail, with_user, wrong, passed, wanted, call_of, timeout_of, stray_of, info_of, says, tells};

use crate::{Answer, Command, Content, Fault, Mailbox, Phase, Session, Take};
use st_events::{
    Action, Actions, EnterAction, EnterActions, EnterOutcome, Init, Kind, Module, Outcome, Reason,
    Tag, Time, Timer,
};
use std::alloc::{AllocError, Global};

/// How many milliseconds the client may say nothing, and a mail may be on its way.
const IDLE_TIME: u32 = 30_000;

/// How many milliseconds a login may take.
const LOGIN_TIME: u32 = 60_000;

/// The timer of the login.
const LOGIN: Timer = Timer::Named(1);

/// How many wrong PINs end it.
const TRIES: u32 = 3;

/// The reason for which a mailbox stops.
const NORMAL: Reason = 0;

/// What the mailbox's `handle` answers.
type Handled = Outcome<Phase, Session, Content>;

/// What the mailbox's `enter` answers.
type Entered = EnterOutcome<Session, Content>;

/// A mailbox with a line protocol. A client says its name and its PIN, and takes mails; the third wrong PIN ends it.
///
/// While a mail is being taken, commands are postponed. After 30,000 milliseconds without a command the mailbox ends, and
/// so it does where a login takes 60,000.
///
/// It has enter calls: that of `Busy` sets the time-out of a mail that does not come, that of `Closing` the one that stops
/// the machine once all that waits was refused.
///
/// Ours: an example of a protocol's handler.
#[derive(Clone, Copy)]
pub struct Mail;

/// The event time-out: the client says nothing.
fn idle_runs() -> Action<Content>
    ensures { result ≡ idle_runs }
{
    Action::Set(Timer::Event, Time::After(IDLE_TIME), Content::TimeOut)
}

/// One action.
fn one(alloc: Global, action: Action<Content>) -> Result<Actions<Content>, AllocError>
    ensures { IfOk result (λ actions. actions ≡ action ∷ []) }
{
    and(Actions::new(alloc), action)
}

/// One action more, behind the others.
fn and(
    mut actions: Actions<Content>,
    action: Action<Content>,
) -> Result<Actions<Content>, AllocError>
    ensures { IfOk result (λ more. more ≡ actions ++ action ∷ []) }
{
    actions.push(action)?;
    Ok(actions)
}

/// State and data stay, and one thing is asked for.
fn asks(alloc: Global, action: Action<Content>) -> Result<Handled, AllocError>
    ensures { IfOk result (λ outcome. outcome ≡ KeepStateAndData (action ∷ [])) }
{
    Ok(Outcome::KeepStateAndData(one(alloc, action)?))
}

/// A call is answered, and the client is waited for.
fn answers(alloc: Global, tag: Tag, answer: Answer) -> Result<Actions<Content>, AllocError>
    ensures { IfOk result (λ actions. actions ≡ answers tag answer) }
{
    let said = one(alloc, Action::Reply(tag, Content::Said(answer)))?;
    and(said, idle_runs())
}

/// State and data stay, and a call is answered.
fn keeps(alloc: Global, tag: Tag, answer: Answer) -> Result<Handled, AllocError>
    ensures { IfOk result (λ outcome. outcome ≡ keeps tag answer) }
{
    Ok(Outcome::KeepStateAndData(answers(alloc, tag, answer)?))
}

/// The last word to the client is said.
fn closes(alloc: Global, data: &Session, last: Action<Content>) -> Result<Handled, AllocError>
    ensures { IfOk result (λ outcome. outcome ≡ closes «data».now last) }
{
    let actions = one(alloc, last)?;
    Ok(Outcome::NextState(Phase::Closing, *data, actions))
}

/// The last word to the client answers its call.
fn replies_last(
    alloc: Global,
    tag: Tag,
    answer: Answer,
    data: &Session,
) -> Result<Handled, AllocError>
    ensures { IfOk result (λ outcome. outcome ≡ closes «data».now (says tag answer)) }
{
    closes(alloc, data, Action::Reply(tag, Content::Said(answer)))
}

/// The last word to the client answers no call.
fn tells_last(alloc: Global, answer: Answer, data: &Session) -> Result<Handled, AllocError>
    ensures { IfOk result (λ outcome. outcome ≡ closes «data».now (tells «data».now answer)) }
{
    closes(
        alloc,
        data,
        Action::Send(data.mailbox.client, Content::Said(answer)),
    )
}

/// Whether a PIN opens the mailbox.
fn is_right(data: &Session, pin: u32) -> bool
    ensures { result ≡ is_right «data».now pin }
{
    data.user == data.mailbox.owner && pin == data.mailbox.pin
}

/// Whether there is a mail of a number.
fn has_mail(data: &Session, number: u32) -> bool
    ensures { result ≡ has_mail «data».now number }
{
    0 < number && number <= data.mailbox.mails
}

/// A wrong PIN: the last one ends it.
fn wrong(alloc: Global, tag: Tag, data: &Session) -> Result<Handled, AllocError>
    ensures { IfOk result (λ outcome. outcome ≡ wrong tag «data».now) }
{
    let tries = data.tries.saturating_sub(1);
    let answer = Answer::Not(Fault::Wrong);
    if tries == 0 {
        replies_last(alloc, tag, answer, data)
    } else {
        let actions = answers(alloc, tag, answer)?;
        Ok(Outcome::KeepState(Session { tries, ..*data }, actions))
    }
}

/// A PIN: the right one opens the mailbox, and the time of the login is no longer counted.
fn passed(alloc: Global, tag: Tag, pin: u32, data: &Session) -> Result<Handled, AllocError>
    ensures { IfOk result (λ outcome. outcome ≡ passed tag pin «data».now) }
{
    if is_right(data, pin) {
        let actions = one(alloc, Action::Cancel(LOGIN))?;
        let actions = and(actions, Action::Reply(tag, Content::Said(Answer::Fine)))?;
        let actions = and(actions, idle_runs())?;
        Ok(Outcome::NextState(Phase::Open, *data, actions))
    } else {
        wrong(alloc, tag, data)
    }
}

/// A mail is wanted: it is being taken, where there is one.
fn wanted(alloc: Global, tag: Tag, number: u32, data: &Session) -> Result<Handled, AllocError>
    ensures { IfOk result (λ outcome. outcome ≡ wanted tag number «data».now) }
{
    if has_mail(data, number) {
        let busy = Phase::Busy(Take { tag, number });
        Ok(Outcome::NextState(busy, *data, Actions::new(alloc)))
    } else {
        keeps(alloc, tag, Answer::Not(Fault::NoMail))
    }
}

/// The client says its name.
fn named(alloc: Global, tag: Tag, user: u32, data: &Session) -> Result<Handled, AllocError>
    ensures { IfOk result (λ outcome. outcome ≡ NextState Named (with_user «data».now user) (answers tag Fine)) }
{
    let actions = answers(alloc, tag, Answer::Fine)?;
    Ok(Outcome::NextState(Phase::Named, Session { user, ..*data }, actions))
}

/// A command of the client. While a mail is being taken it is postponed.
fn call(
    alloc: Global,
    tag: Tag,
    command: Command,
    state: Phase,
    data: &Session,
) -> Result<Handled, AllocError>
    ensures { IfOk result (λ outcome. outcome ≡ call_of tag command state «data».now) }
{
    match (command, state) {
        (_, Phase::Busy(_)) => asks(alloc, Action::Postpone(true)),
        (_, Phase::Closing) => {
            let refused = Content::Said(Answer::Not(Fault::Closing));
            asks(alloc, Action::Reply(tag, refused))
        }
        (Command::Quit, _) => replies_last(alloc, tag, Answer::Bye, data),
        (Command::Unknown, _) => keeps(alloc, tag, Answer::Not(Fault::NoCommand)),
        (Command::User(user), Phase::Greeted) => named(alloc, tag, user, data),
        (Command::Pass(pin), Phase::Named) => passed(alloc, tag, pin, data),
        (Command::Stat, Phase::Open) => keeps(alloc, tag, Answer::Mails(data.mailbox.mails)),
        (Command::Noop, Phase::Open) => keeps(alloc, tag, Answer::Fine),
        (Command::Take(number), Phase::Open) => wanted(alloc, tag, number, data),
        _ => keeps(alloc, tag, Answer::Not(Fault::NotNow)),
    }
}

/// A time-out: what closes stops, a mail did not come, the client said nothing, or the login took too long.
fn time_out(
    alloc: Global,
    timer: Timer,
    state: Phase,
    data: &Session,
) -> Result<Handled, AllocError>
    ensures { IfOk result (λ outcome. outcome ≡ timeout_of timer state «data».now) }
{
    match (timer, state) {
        (Timer::State, Phase::Closing) => Ok(Outcome::Stop(NORMAL, None)),
        (Timer::State, Phase::Busy(take)) => {
            replies_last(alloc, take.tag, Answer::Not(Fault::Idle), data)
        }
        (Timer::Event, Phase::Greeted | Phase::Named | Phase::Open) => {
            tells_last(alloc, Answer::Not(Fault::Idle), data)
        }
        (Timer::Named(_), Phase::Greeted | Phase::Named) => {
            tells_last(alloc, Answer::Not(Fault::Late), data)
        }
        _ => Ok(Outcome::KeepStateAndData(Actions::new(alloc))),
    }
}

/// An event that means nothing here: the client is still waited for.
fn stray(alloc: Global, state: Phase) -> Result<Handled, AllocError>
    ensures { IfOk result (λ outcome. outcome ≡ stray_of state) }
{
    match state {
        Phase::Busy(_) | Phase::Closing => Ok(Outcome::KeepStateAndData(Actions::new(alloc))),
        _ => asks(alloc, idle_runs()),
    }
}

/// An info: the mail that is being taken is there. Its call is answered, and the commands that waited come.
fn info(
    alloc: Global,
    content: Content,
    state: Phase,
    data: &Session,
) -> Result<Handled, AllocError>
    ensures { IfOk result (λ outcome. outcome ≡ info_of content state «data».now) }
{
    match (content, state) {
        (Content::Done, Phase::Busy(take)) => {
            let actions = answers(alloc, take.tag, Answer::Mail(take.number))?;
            Ok(Outcome::NextState(Phase::Open, *data, actions))
        }
        _ => stray(alloc, state),
    }
}

impl Module for Mail {
    type State = Phase;

    type Data = Session;

    type Content = Content;

    type Arg = Mailbox;

    ghost init_is = { λ mail mailbox. init_of mailbox };

    ghost handle_is = { λ mail kind content state held. handle_of kind content state held };

    ghost enters_is = { λ mail. enters };

    ghost enter_is = { λ mail old state held. enter_of old state held };

    ghost terminate_is = { λ mail reason state held. terminate_of reason state held };

    fn init(
        &self,
        alloc: Global,
        mailbox: &Mailbox,
    ) -> Result<Init<Phase, Session, Content>, AllocError> {
        let data = Session {
            mailbox: *mailbox,
            user: 0,
            tries: TRIES,
        };
        let greets = Action::Send(mailbox.client, Content::Said(Answer::Ready));
        let login_runs = Action::Set(LOGIN, Time::After(LOGIN_TIME), Content::TimeOut);
        let actions = and(and(one(alloc, greets)?, login_runs)?, idle_runs())?;
        Ok(Init::Ok(Phase::Greeted, data, actions))
    }

    fn handle(
        &self,
        alloc: Global,
        kind: Kind,
        content: &Content,
        state: Phase,
        data: &Session,
    ) -> Result<Handled, AllocError> {
        match (kind, *content) {
            (Kind::Call(tag), Content::Asked(command)) => call(alloc, tag, command, state, data),
            (Kind::Timeout(timer), _) => time_out(alloc, timer, state, data),
            (Kind::Info, content) => info(alloc, content, state, data),
            _ => stray(alloc, state),
        }
    }

    fn enters(&self) -> bool {
        true
    }

    fn enter(
        &self,
        alloc: Global,
        _old: Phase,
        state: Phase,
        _data: &Session,
    ) -> Result<Entered, AllocError> {
        let mut actions = EnterActions::new(alloc);
        match state {
            Phase::Busy(_) => {
                let time = Time::After(IDLE_TIME);
                actions.push(EnterAction::Set(Timer::State, time, Content::TimeOut))?;
            }
            Phase::Closing => {
                let time = Time::After(0);
                actions.push(EnterAction::Set(Timer::State, time, Content::TimeOut))?;
            }
            _ => {}
        }
        Ok(EnterOutcome::KeepStateAndData(actions))
    }

    fn terminate(&self, _reason: Reason, _state: Phase, data: &Session) -> u32 {
        data.user
    }

    fn copy_content(&self, _alloc: Global, content: &Content) -> Result<Content, AllocError> {
        Ok(*content)
    }

    fn copy_data(&self, _alloc: Global, data: &Session) -> Result<Session, AllocError> {
        Ok(*data)
    }

    ghost lawful = { Prim.search rules };
}
