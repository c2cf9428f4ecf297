// What the five objects of a sequence have in common: each is created, called and shown.
use super::rooms::Rooms;
use super::text::Said;
use super::words::NotUnderstood;
use refusal::Refusal;
use std::fmt;
use std::fmt::Write;

pub trait Object: Drop {
    // The calls that may be made on it.
    type Call: Drop;

    // Takes the words behind `new`: a new object, or the refusal that its creation answers.
    fn create(rooms: &mut Rooms, words: &[&str]) -> Result<Result<Self, Refusal>, NotUnderstood>
    where
        Self: Sized;

    // Takes the name of a call, without the object's, and the words behind it. A byte string is put into its room.
    fn read(rooms: &mut Rooms, name: &str, words: &[&str]) -> Result<Self::Call, NotUnderstood>;

    fn call(&mut self, rooms: &mut Rooms, call: Self::Call) -> Said;

    // Writes its state behind our answer.
    fn show(&self, rooms: &mut Rooms) -> fmt::Result;
}

// Does what a line asks of an object, and puts `ANSWER | STATE` into its room. A creation that is refused leaves the object as it was before,
// and a call on one that was never created is not made. What finds no room is left out.
pub fn turn<T: Object>(
    object: &mut Option<T>,
    rooms: &mut Rooms,
    name: &str,
    words: &[&str],
) -> Result<(), NotUnderstood> {
    let said = if name == "new" {
        created(object, T::create(rooms, words)?)
    } else {
        let call = T::read(rooms, name, words)?;
        called(object, rooms, call)
    };
    rooms.ours.clear();
    let _ = write!(rooms.ours, "{said} | ");
    let _ = match object {
        Some(object) => object.show(rooms),
        None => write!(rooms.ours, "-"),
    };
    Ok(())
}

fn created<T: Object>(object: &mut Option<T>, answer: Result<T, Refusal>) -> Said {
    match answer {
        Ok(fresh) => {
            *object = Some(fresh);
            Said::Done
        }
        Err(why) => Said::Refused(why),
    }
}

fn called<T: Object>(object: &mut Option<T>, rooms: &mut Rooms, call: T::Call) -> Said {
    match object {
        Some(object) => object.call(rooms, call),
        None => Said::Absent,
    }
}
