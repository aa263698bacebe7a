// Two kinds of count that must not pass for each other: the age of a firing, from 0, and the column of the clock matrix that
// counts the firings of that age, from 1 as document 004 numbers them.
ghost use Rattle.std.specs.Prelude.{◌≡◌, ◌<◌, ◌≤◌};
ghost use Rattle.model.specs.Age.{column_of, age_of};

// How many ticks a firing has seen. An age is one byte of an event.
#[derive(Clone, Copy)]
pub struct Age(pub u8);

// A column of the clock matrix: 1 for age 0, and 256 for the oldest age that a byte can name.
#[derive(Clone, Copy)]
pub struct Column(pub u16);

impl Age {
    // A method, as its inverse is: that asks for a column that an age has, which no `From` can ask.
    pub fn column(self) -> Column
        ensures { result ≡ column_of self }
    {
        Column(self.0 as u16 + 1)
    }
}

impl Column {
    pub fn age(self) -> Age
        requires { (0 < self.0) × (self.0 ≤ 256) }
        ensures { result ≡ age_of self }
    {
        Age((self.0 - 1) as u8)
    }
}
