//! Letters are shared, and compared by what is in them.

use petal_base::{Block, Sequence, SharedBlock};
use petal_command::{Ballot, ClientNumber, Command, Pax};
use petal_msg::{Actor, Body, Letter, SharedLetter};
use std::alloc::Global;
use std::test::Fail;

/// A letter with a block of sevens.
fn data(alloc: Global) -> Result<Letter, Fail> {
    Ok(Letter {
        from: Actor::Server(1),
        inc: 1,
        to: Actor::Client(0),
        rev: 1,
        stamp: 9,
        nth: 0,
        body: Body::Data {
            seq: 3,
            bytes: SharedBlock::new(alloc, Block::fill(alloc, 7)?)?,
        },
    })
}

fn is_shared(letter: &SharedLetter) -> Result<bool, Fail> {
    let other = letter.share()?;
    Ok(other.get().is_same(letter.get()))
}

fn is_cloned(letter: &SharedLetter) -> Result<bool, Fail> {
    Ok(letter.clone()?.get().is_same(letter.get()))
}

fn is_written(letter: &Letter) -> bool {
    letter.body.is_same(&Body::Written { seq: 3 })
}

fn is_compared(letter: &SharedLetter) -> Result<bool, Fail> {
    Ok(is_shared(letter)? && is_cloned(letter)? && !is_written(letter.get()))
}

#[test]
fn letters_are_shared_and_compared(rt: HostRuntime) -> Result<(), Fail> {
    let letter = SharedLetter::new(rt.alloc(), data(rt.alloc())?)?;
    assert!(rt; is_compared(&letter)?);
    Ok(())
}

/// The first Witness of client 0.
fn witness() -> Result<Command, Fail> {
    Ok(Command::Witness {
        client: ClientNumber::checked(0).ok_or("a client")?,
        seq: 1,
        turn: 0,
    })
}

fn proposed() -> Result<Body, Fail> {
    Ok(Body::Propose {
        command: witness()?,
    })
}

fn news(alloc: Global) -> Result<Body, Fail> {
    let commands = Sequence::one(alloc, witness()?)?;
    Ok(Body::News { after: 4, commands })
}

fn prepare() -> Body {
    let ballot = Ballot {
        round: 1,
        server: 2,
    };
    Body::Pax(Pax::Prepare { place: 1, ballot })
}

/// Whether a body equals one that is made alike, and not an Ask.
fn is_told_apart(body: Body, again: Body) -> bool {
    body.is_same(&again) && !again.is_same(&Body::Ask { rev: 4 })
}

fn asks_are_told_apart() -> bool {
    let ask = Body::Ask { rev: 4 };
    ask.is_same(&Body::Ask { rev: 4 }) && !ask.is_same(&Body::Ask { rev: 5 })
}

fn news_are_told_apart(alloc: Global) -> Result<bool, Fail> {
    let again = news(alloc)?;
    Ok(is_told_apart(news(alloc)?, again))
}

#[test]
fn letters_of_the_log_are_compared(rt: HostRuntime) -> Result<(), Fail> {
    assert!(rt; asks_are_told_apart());
    assert!(rt; news_are_told_apart(rt.alloc())?);
    assert!(rt; is_told_apart(proposed()?, proposed()?));
    assert!(rt; is_told_apart(prepare(), prepare()));
    Ok(())
}
