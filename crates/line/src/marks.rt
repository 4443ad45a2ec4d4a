// Start-of-message marks: a session uses them if a code size is given at its opening.
ghost use Rattle.std.specs.Prelude.{◌≡◌, Ok, Err, cond};
ghost use Rattle.line.specs.Marks.{marks_of, is_code_size, marks_in_range, mark, is_mark};

use crate::Refusal;

// Bits on the line, and no enum: any of the sixteen may arrive.
const MARK_5: u8 = 0b0001;

const MARK_6: u8 = 0b1010;

const MARK_7: u8 = 0b1011;

const MARK_8: u8 = 0b0010;

// What a state keeps of a code size, of which an opening is given one or none. Without marks nobody judges the size.
// Two fields, and no Option: `order_line_send` writes a state's size byte back as it stood, also where marks are not in use.
#[derive(Clone, Copy)]
pub struct Marks {
    pub in_use: bool,
    pub size: u8,
}

#[tactic(auto, unfolding(crate::specs::Marks::is_code_size))]
fn is_code_size(size: usize) -> bool
    ensures { result ≡ is_code_size size }
{
    (5..=8).contains(&size)
}

impl Marks {
    pub const NONE: Marks = Marks {
        in_use: false,
        size: 0,
    };

    // The size is a machine word, so that one out of range is not cut to one in range. No TryFrom, which would be public.
    #[tactic(auto, unfolding(crate::specs::Marks::marks_in_range, crate::specs::Marks::is_code_size))]
    pub(crate) fn of(size: Option<usize>) -> Result<Marks, Refusal>
        ensures { result ≡ cond (marks_in_range (marks_of size)) (Ok (marks_of size)) (Err Refusal.CodeSize) }
    {
        match size {
            None => Ok(Marks::NONE),
            Some(size) if is_code_size(size) => Ok(Marks {
                in_use: true,
                size: size as u8,
            }),
            Some(_) => Err(Refusal::CodeSize),
        }
    }

    #[tactic(auto, unfolding(crate::specs::Marks::marks_in_range))]
    pub(crate) fn in_range(self) -> bool
        ensures { result ≡ marks_in_range self }
    {
        !self.in_use || is_code_size(usize::from(self.size))
    }
}

// The mark of a code size.
#[tactic(auto, unfolding(crate::specs::Marks::mark))]
pub(crate) fn mark(size: u8) -> u8
    ensures { result ≡ mark size }
{
    match size {
        5 => MARK_5,
        6 => MARK_6,
        7 => MARK_7,
        _ => MARK_8,
    }
}

#[tactic(auto, unfolding(crate::specs::Marks::is_mark))]
pub(crate) fn is_mark(service: u8) -> bool
    ensures { result ≡ is_mark service }
{
    matches!(service, MARK_5 | MARK_6 | MARK_7 | MARK_8)
}
