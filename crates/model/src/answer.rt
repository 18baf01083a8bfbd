// What making and marking answer: the counts of a pagination, or one numbered refusal with its place.
ghost use Rattle.std.specs.Prelude.{◌≡◌};
ghost use Rattle.model.specs.Answers.{numbers_of};

// The number that turns work away, and its place: both of document 01, whose numbers the C interface and the theorems state.
#[derive(Clone, Copy, PartialEq, Eq, Debug)]
pub struct Refusal {
    pub number: u32,
    pub place: u32,
}

// The counts of a pagination: its pages, X, Y, its turns and its white.
#[derive(Clone, Copy, PartialEq, Eq, Debug)]
pub struct Counted {
    pub pages: u32,
    pub x: u32,
    pub y: u32,
    pub turns: u32,
    pub white: u32,
}

pub type Answer = Result<Counted, Refusal>;

// An answer as the six numbers of document 01 and its white: in a refusal the counts are 0, in a success number and place are.
#[derive(Clone, Copy, PartialEq, Eq, Debug)]
pub struct Numbers {
    pub number: u32,
    pub place: u32,
    pub pages: u32,
    pub x: u32,
    pub y: u32,
    pub turns: u32,
    pub white: u32,
}

pub fn numbers_of(answer: Answer) -> Numbers
    ensures { result ≡ numbers_of answer }
{
    match answer {
        Ok(
            Counted {
                pages,
                x,
                y,
                turns,
                white,
            },
        ) => Numbers {
            number: 0,
            place: 0,
            pages,
            x,
            y,
            turns,
            white,
        },
        Err(Refusal { number, place }) => Numbers {
            number,
            place,
            pages: 0,
            x: 0,
            y: 0,
            turns: 0,
            white: 0,
        },
    }
}
