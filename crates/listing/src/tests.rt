//! What no clause says: the marker traits of a session and a form; and a session that runs.

use super::*;
use refusal::Refusal;

fn may_be_copied_and_shared<T: Copy + Send + Sync>(_value: T) {}

#[test]
fn marker_traits() {
    may_be_copied_and_shared(Session::new());
    if let Ok(form) = Form::new(2, 2) {
        may_be_copied_and_shared(form);
    }
}

#[test]
fn refusal_is_kept(rt: HostRuntime) {
    let mut session = Session::new();
    assert_eq!(rt; session.feed(b"x "), Err(Refusal::Length));
    let board = b"2 2 1 2 0 2 1 10 30 5 0 4 7 1 3 -2";
    assert_eq!(rt; session.feed(board), Err(Refusal::Length));
    assert_eq!(rt; session.push(b' '), Err(Refusal::Length));
    assert_eq!(rt; session.feed(b""), Err(Refusal::Length));
    assert_eq!(rt; session.finish().err(), Some(Refusal::Length));
    assert!(rt; Given::parse(board).is_ok());
}
