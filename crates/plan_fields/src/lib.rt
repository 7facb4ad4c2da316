// The two fields of a line of settings, taken byte by byte, so that a line of any length needs no more memory than a short one.
#![tactic(auto)]

ghost use Rattle.std.specs.Prelude.{◌≡◌, List, [], ◌++◌, ℕ, ◌<◌};
ghost use Rattle.plan_fields.specs.Asks.{nothing, byte_taken, digit_taken, kept_in, past_tab, with_digit, taken, whole_in, Holds, Said};

// How many bytes of a field are kept: one more than the longest setting has, so that a field that is longer is seen to be.
pub const KEPT: usize = 17;

// One field of the line: its first bytes, how many are kept, and the digit that waits for the second of its pair.
// An array and a count, since a reading can be copied and a vector cannot.
#[derive(Clone, Copy)]
pub struct Field {
    pub bytes: [u8; KEPT],
    pub count: usize,
    pub high: Option<u8>,
}

impl Field {
    fn empty() -> Field
        ensures { result ≡ nothing }
    {
        Field {
            bytes: [0; KEPT],
            count: 0,
            high: None,
        }
    }

    // A pair of digits is whole.
    #[tactic(auto, unfolding(crate::specs::Asks::byte_taken))]
    fn take_byte(&mut self, v: u8)
        ensures { self.new ≡ byte_taken self.old v }
    {
        self.high = None;
        if self.count < KEPT {
            self.bytes[self.count] = v;
            self.count += 1;
        }
    }

    #[tactic(auto, unfolding(crate::specs::Asks::digit_taken))]
    fn take_digit(&mut self, d: u8)
        requires { d < 16 }
        ensures { self.new ≡ digit_taken self.old d }
    {
        match self.high {
            None => self.high = Some(d),
            Some(high) => self.take_byte(high % 16 * 16 + d),
        }
    }

    // Its bytes, as far as they are kept.
    pub fn kept(&self) -> &[u8]
        ensures { result.now ≡ kept_in self.now }
    {
        &self.bytes[..self.count.min(KEPT)]
    }
}

// Where the next digit goes: nowhere, once the line is spoiled.
#[derive(Clone, Copy, Debug, PartialEq, Eq)]
pub enum Place {
    Start,
    Goal,
    Nowhere,
}

impl Place {
    fn after_tab(self) -> Place
        ensures { result ≡ past_tab self }
    {
        match self {
            Place::Start => Place::Goal,
            _ => Place::Nowhere,
        }
    }
}

#[derive(Clone, Copy)]
pub struct Reading {
    pub start: Field,
    pub goal: Field,
    pub place: Place,
}

impl Reading {
    // Before the first byte of a line.
    #[tactic(auto, unfolding(crate::specs::Asks::taken_all))]
    pub fn begin() -> Reading
        ensures { Holds result [] × Said result }
    {
        Reading {
            start: Field::empty(),
            goal: Field::empty(),
            place: Place::Start,
        }
    }

    // A digit goes to its field.
    #[tactic(auto, unfolding(crate::specs::Asks::with_digit))]
    fn take_digit(&mut self, d: u8)
        requires { d < 16 }
        ensures { self.new ≡ with_digit self.old d }
    {
        match self.place {
            Place::Start => self.start.take_digit(d),
            Place::Goal => self.goal.take_digit(d),
            Place::Nowhere => {}
        }
    }

    // A byte of the line.
    #[tactic(auto, unfolding(crate::specs::Asks::taken))]
    fn take(&mut self, b: u8)
        ensures { self.new ≡ taken self.old b }
    {
        let d = text::digit(b);
        if b == b'\t' {
            self.place = self.place.after_tab();
        } else if d < 16 {
            self.take_digit(d as u8);
        } else {
            self.place = Place::Nowhere;
        }
    }

    // The line has these bytes more.
    #[tactic(auto, unfolding(crate::specs::Asks::taken_all))]
    pub fn grow(&mut self, part: &[u8])
        requires { Said self.old }
        ensures { ((text : List ℕ) → Holds self.old text → Holds self.new (text ++ part.now)) × Said self.new }
    {
        for b in part {
            self.take(*b);
        }
    }

    // Whether the line is two fields of whole pairs.
    pub fn is_whole(&self) -> bool
        ensures { result ≡ whole_in self.now }
    {
        self.place == Place::Goal && self.start.high.is_none() && self.goal.high.is_none()
    }
}
