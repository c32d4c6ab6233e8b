// The words of a line, read one behind the other; between two stands one space. A thing that is not written as it must be is none.
use cars::{Car, Tag};
use junction::Junction;
use plan::Plan;
use positions::VALUES;
use std::str::Split;
use usernode::{Activity, Node};

// The words that are still to be read.
#[derive(Drop)]
pub struct Words<'a>(Split<'a, char>);

// The number that a word is, in decimal digits alone.
fn decimal(word: &str) -> Option<u64> {
    if word.starts_with('+') {
        return None;
    }
    word.parse().ok()
}

impl<'a> Words<'a> {
    // The words of a line.
    pub fn of(line: &'a str) -> Words<'a> {
        Words(line.split(' '))
    }

    // The next word.
    pub fn next(&mut self) -> Option<&'a str> {
        self.0.next()
    }

    // A number of at most 2^64 - 1.
    pub fn number(&mut self) -> Option<u64> {
        decimal(self.next()?)
    }

    // A number of at most 255.
    pub fn small(&mut self) -> Option<u8> {
        u8::try_from(self.number()?).ok()
    }

    // A place, of so many.
    pub fn place(&mut self, places: usize) -> Option<usize> {
        let place = usize::try_from(self.number()?).ok()?;
        (place < places).then_some(place)
    }

    // The place of a node or a junction, of so many, by its number: the first has number 1.
    pub fn numbered(&mut self, places: usize) -> Option<usize> {
        let number = usize::try_from(self.number()?).ok()?;
        number.checked_sub(1).filter(|place| *place < places)
    }

    // A flag, 0 or 1.
    fn flag(&mut self) -> Option<bool> {
        match self.number()? {
            0 => Some(false),
            1 => Some(true),
            _ => None,
        }
    }

    // Lock, source.
    fn tag(&mut self) -> Option<Tag> {
        Some(Tag {
            lock: self.small()?,
            source: self.small()?,
        })
    }

    // Name; lock and source, if it has them.
    pub fn car(&mut self) -> Option<Car> {
        match self.next()? {
            "idle" => Some(Car::Idle),
            "token" => Some(Car::Token),
            "null" => Some(Car::Null),
            "reqp" => Some(Car::Reqp(self.tag()?)),
            "failp" => Some(Car::Failp(self.tag()?)),
            "dov" => Some(Car::Dov(self.tag()?)),
            "gotp" => Some(Car::Gotp(self.tag()?)),
            "didv" => Some(Car::Didv(self.tag()?)),
            _ => None,
        }
    }

    // Name; lock, if it has one.
    fn activity(&mut self) -> Option<Activity> {
        match self.next()? {
            "idle" => Some(Activity::Idle),
            "sendreqp" => Some(Activity::ToSendReqp(self.small()?)),
            "waitreqp" => Some(Activity::WaitingReqp(self.small()?)),
            "senddov" => Some(Activity::ToSendDov(self.small()?)),
            "waitdov" => Some(Activity::WaitingDov(self.small()?)),
            _ => None,
        }
    }

    // Car, in-train flag, activity, held word, letting-go word.
    pub fn node(&mut self) -> Option<Node> {
        Some(Node {
            car: self.car()?,
            flag: self.flag()?,
            activity: self.activity()?,
            held: self.number()?,
            letting: self.number()?,
        })
    }

    // Main car, subring car, train flag, tour flag, word.
    pub fn junction(&mut self) -> Option<Junction> {
        Some(Junction {
            main: self.car()?,
            subring: self.car()?,
            train: self.flag()?,
            tour: self.flag()?,
            word: self.number()?,
        })
    }

    // The values at the line's end, at most sixteen; those not given are 0.
    pub fn values(&mut self) -> Option<[u8; 16]> {
        let mut values = [0; 16];
        for value in &mut values {
            match self.next() {
                None => break,
                Some(word) => *value = u8::try_from(decimal(word)?).ok()?,
            }
        }
        Some(values)
    }

    // Rules, locks, number of positions, the first values; all others are 0.
    pub fn plan(&mut self) -> Option<Plan> {
        let rules = self.small()?;
        let locks = self.small()?;
        let positions = self.small()?;
        let mut values = [0; VALUES];
        values[..16].copy_from_slice(&self.values()?);
        Some(Plan {
            rules,
            locks,
            positions,
            values,
        })
    }
}
