// The table of operations.
use super::table_steps::{Asked, Begun, Step, Told, tells};
use std::test::Fail;

/// Keeps that a token was made of so many blocks.
fn make_token(id: u32, serial: u64, blocks: u32) -> Step {
    Step::Begin(Begun::Token { id, serial, blocks })
}

fn operation(id: u32) -> Step {
    Step::Ask(Asked::Operation { id })
}

/// What is told of a token that was made.
fn made(serial: u64, blocks: u32) -> Told {
    Told::Made { serial, blocks }
}

/// The 65th operation is one too many. A token may still be made.
#[test]
fn too_many(rt: HostRuntime) -> Result<(), Fail> {
    let steps = [
        (Step::Begin(Begun::Copies { below: 64 }), Told::Is(true)),
        (Step::Ask(Asked::IsCrowded), Told::Is(true)),
        (Step::Ask(Asked::CopyRuns { id: 64 }), Told::Is(false)),
        (Step::Ask(Asked::CopyRuns { id: 63 }), Told::Is(true)),
        (make_token(1, 0, 1), Told::Is(true)),
        (Step::Ask(Asked::Running), Told::Count(64)),
        (Step::Ask(Asked::Reserved), Told::Count(64)),
    ];
    assert!(rt; tells(rt.alloc(), &steps)?);
    Ok(())
}

/// The 257th record drops the first that has ended; what runs stays, and one of a key that is kept takes no other's place.
#[test]
fn room(rt: HostRuntime) -> Result<(), Fail> {
    let steps = [
        (Step::Begin(Begun::Copies { below: 1 }), Told::Is(true)),
        (Step::Begin(Begun::Tokens { below: 255 }), Told::Is(true)),
        (operation(0), made(9, 1)),
        (make_token(255, 9, 1), Told::Is(true)),
        (Step::Ask(Asked::CopyRuns { id: 0 }), Told::Is(true)),
        (operation(0), Told::Nothing),
        (operation(1), made(9, 1)),
        (make_token(255, 10, 2), Told::Is(true)),
        (operation(1), made(9, 1)),
        (operation(255), made(10, 2)),
    ];
    assert!(rt; tells(rt.alloc(), &steps)?);
    Ok(())
}
