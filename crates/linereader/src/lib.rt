// A line of the night program read back, byte by byte: its steps, its letter and its numbers, or that it is no line. What has been read of a
// line goes in and comes back by value, so a text may come in pieces of any size.
#![tactic(auto, unfolding(crate::specs::Reading::start_scan, crate::specs::Reading::wrong, crate::specs::Reading::digit_read, crate::specs::Reading::steps_read, crate::specs::Reading::letter_read, crate::specs::Reading::space_read, crate::specs::Reading::is_kind, crate::specs::Reading::is_last_number, crate::specs::Reading::number_read, crate::specs::Reading::ends_number, crate::specs::Reading::on_steps, crate::specs::Reading::on_letter, crate::specs::Reading::on_space, crate::specs::Reading::on_numbers, crate::specs::Reading::on_byte_in, crate::specs::Reading::scan_byte))]

mod digits;
mod letters;

ghost use Rattle.std.specs.Prelude.{◌<◌, ◌≡◌, cond};
ghost use Rattle.linereader.specs.Reading.{start_scan, wrong, is_last_number, number_read, on_steps, on_letter, on_space, on_numbers, scan_byte};

pub use letters::kind_of;

// Which lines bear a letter: an action's or an event's; a lock's; a run's last; a refused file's.
#[derive(Clone, Copy, Debug, PartialEq, Eq)]
pub enum LineKind {
    Deed,
    Lock,
    Last,
    Refusal,
}

// The part of the line that comes next; or that it is whole, or no line: states like the others and no answer, since what is read behind them is wrong too.
#[derive(Clone, Copy, Debug, PartialEq, Eq)]
pub enum Part {
    Steps,
    Letter,
    Space,
    Numbers,
    Whole,
    Wrong,
}

// What has been read of a line: the number at hand, and whether it has a digit yet; the steps, the letter, and so many numbers. They are an array with a
// count beside it, since the memory is fixed; a scan may be made up with any count, so 4 is asked where it is needed. The letter stays a byte, and `begun`
// and `number` are a flag and a number, and no Option: `scan_byte` is promised of every scan, also of one with a number and no digit yet.
#[derive(Clone, Copy, Debug, PartialEq, Eq)]
pub struct Scan {
    pub part: Part,
    pub begun: bool,
    pub number: u64,
    pub steps: u64,
    pub letter: u8,
    pub count: u8,
    pub numbers: [u64; 4],
}

// At the start of a line.
pub fn start_scan() -> Scan
    ensures { result ≡ start_scan }
{
    Scan {
        part: Part::Steps,
        begun: false,
        number: 0,
        steps: 0,
        letter: 0,
        count: 0,
        numbers: [0; 4],
    }
}

impl Scan {
    // No line begins like this.
    fn wrong(self) -> Scan
        ensures { result ≡ wrong self }
    {
        Scan {
            part: Part::Wrong,
            ..self
        }
    }

    // One byte more while the steps are read.
    fn on_steps(self, byte: u8) -> Scan
        ensures { result ≡ on_steps self byte }
    {
        match digits::digit_behind(self.begun, self.number, byte) {
            Some(number) => Scan {
                begun: true,
                number,
                ..self
            },
            None if self.begun && byte == b' ' => Scan {
                part: Part::Letter,
                begun: false,
                number: 0,
                steps: self.number,
                ..self
            },
            None => self.wrong(),
        }
    }

    // One byte more where the letter stands.
    fn on_letter(self, byte: u8) -> Scan
        ensures { result ≡ on_letter self byte }
    {
        if kind_of(byte).is_some() {
            return Scan {
                part: Part::Space,
                letter: byte,
                ..self
            };
        }
        self.wrong()
    }

    // One byte more behind the letter.
    fn on_space(self, byte: u8) -> Scan
        ensures { result ≡ on_space self byte }
    {
        if byte == b' ' {
            return Scan {
                part: Part::Numbers,
                ..self
            };
        }
        self.wrong()
    }

    // Whether the number at hand is the line's last.
    fn is_last_number(self) -> bool
        requires { self.count < 4 }
        ensures { result ≡ is_last_number self }
    {
        self.count + 1 == letters::numbers_behind(self.letter)
    }

    // The byte that ends the number at hand: a newline the last one of a line, a space the others.
    fn end_byte(self) -> u8
        requires { self.count < 4 }
        ensures { result ≡ cond (is_last_number self) 10 32 }
    {
        if self.is_last_number() { b'\n' } else { b' ' }
    }

    // One number more is read; the line is whole after the last one.
    fn number_read(self) -> Scan
        requires { self.count < 4 }
        ensures { result ≡ number_read self }
    {
        let mut numbers = self.numbers;
        numbers[usize::from(self.count)] = self.number;
        let part = if self.is_last_number() {
            Part::Whole
        } else {
            Part::Numbers
        };
        Scan {
            part,
            begun: false,
            number: 0,
            count: self.count + 1,
            numbers,
            ..self
        }
    }

    // One byte more while the numbers are read.
    fn on_numbers(self, byte: u8) -> Scan
        ensures { result ≡ on_numbers self byte }
    {
        match digits::digit_behind(self.begun, self.number, byte) {
            Some(number) => Scan {
                begun: true,
                number,
                ..self
            },
            None if self.count < 4 && self.begun && byte == self.end_byte() => self.number_read(),
            None => self.wrong(),
        }
    }
}

// One byte more.
pub fn scan_byte(scan: Scan, byte: u8) -> Scan
    ensures { result ≡ scan_byte scan byte }
{
    match scan.part {
        Part::Steps => scan.on_steps(byte),
        Part::Letter => scan.on_letter(byte),
        Part::Space => scan.on_space(byte),
        Part::Numbers => scan.on_numbers(byte),
        Part::Whole | Part::Wrong => scan.wrong(),
    }
}
