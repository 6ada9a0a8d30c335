//! Operators of values, with the ranks that they have in GNU `as`, and what they make of numbers of
//! 64 bits.

use crate::errors::SourceErrorKind;

/// The most operators and parentheses that wait for what is after them.
const MOST_WAITING: usize = 64;

/// The rank of the operators that bind the least.
pub const LOOSEST: u8 = 1;

/// An operator, or an opening parenthesis.
#[derive(Clone, Copy)]
pub enum Operator {
    /// `(`
    Open,
    /// `-` before a value
    Negate,
    /// `~`
    Complement,
    /// `!` before a value
    IsZero,
    /// `*`
    Multiply,
    /// `/`, of signed numbers
    Divide,
    /// `%`, of signed numbers
    Remainder,
    /// `<<`
    ShiftLeft,
    /// `>>`
    ShiftRight,
    /// `|`
    Or,
    /// `!` between two values
    OrNot,
    /// `^` and `!!`
    Xor,
    /// `&`
    And,
    /// `+`
    Add,
    /// `-` between two values
    Subtract,
    /// `==`
    Equal,
    /// `<>` and `!=`
    NotEqual,
    /// `<`
    Less,
    /// `<=`
    LessOrEqual,
    /// `>`
    Greater,
    /// `>=`
    GreaterOrEqual,
    /// `&&`
    Both,
    /// `||`
    Either,
}

impl Operator {
    /// How strongly it binds. An opening parenthesis binds nothing.
    fn rank(self) -> u8 {
        match self {
            Operator::Open => 0,
            Operator::Either => 1,
            Operator::Both => 2,
            Operator::Equal
            | Operator::NotEqual
            | Operator::Less
            | Operator::LessOrEqual
            | Operator::Greater
            | Operator::GreaterOrEqual => 3,
            Operator::Add | Operator::Subtract => 4,
            Operator::Or | Operator::OrNot | Operator::Xor | Operator::And => 5,
            Operator::Multiply
            | Operator::Divide
            | Operator::Remainder
            | Operator::ShiftLeft
            | Operator::ShiftRight => 6,
            Operator::Negate | Operator::Complement | Operator::IsZero => 7,
        }
    }

    /// What it makes of two numbers. One before its number has nothing on the left. None: there is
    /// no such quotient.
    fn apply(self, left: u64, right: u64) -> Option<u64> {
        let (signed, divisor) = (left.cast_signed(), right.cast_signed());
        Some(match self {
            Operator::Open => right,
            Operator::Negate => 0u64.wrapping_sub(right),
            Operator::Complement => !right,
            Operator::IsZero => u64::from(right == 0),
            Operator::Multiply => left.wrapping_mul(right),
            Operator::Divide => signed.checked_div(divisor)?.cast_unsigned(),
            Operator::Remainder => signed.checked_rem(divisor)?.cast_unsigned(),
            Operator::ShiftLeft if right < 64 => left << right,
            Operator::ShiftRight if right < 64 => left >> right,
            Operator::ShiftLeft | Operator::ShiftRight => 0,
            Operator::Or => left | right,
            Operator::OrNot => left | !right,
            Operator::Xor => left ^ right,
            Operator::And => left & right,
            Operator::Add => left.wrapping_add(right),
            Operator::Subtract => left.wrapping_sub(right),
            Operator::Both => u64::from(left != 0 && right != 0),
            Operator::Either => u64::from(left != 0 || right != 0),
            _ => compared(self, signed, divisor),
        })
    }
}

/// -1 where a comparison holds, and else 0.
fn compared(operator: Operator, left: i64, right: i64) -> u64 {
    let holds = match operator {
        Operator::Equal => left == right,
        Operator::NotEqual => left != right,
        Operator::Less => left < right,
        Operator::LessOrEqual => left <= right,
        Operator::Greater => left > right,
        _ => left >= right,
    };
    if holds { u64::MAX } else { 0 }
}

/// The operator before a value that is this byte: for a plus, which does nothing, there is none.
/// None: the byte is no operator.
pub fn operator_before(byte: u8) -> Option<Option<Operator>> {
    match byte {
        b'-' => Some(Some(Operator::Negate)),
        b'~' => Some(Some(Operator::Complement)),
        b'!' => Some(Some(Operator::IsZero)),
        b'(' => Some(Some(Operator::Open)),
        b'+' => Some(None),
        _ => None,
    }
}

/// The operator between two values that two bytes begin with, and how many bytes it has.
pub fn operator_between(first: u8, second: u8) -> Option<(Operator, usize)> {
    match (first, second) {
        (b'<', b'<') => Some((Operator::ShiftLeft, 2)),
        (b'<', b'=') => Some((Operator::LessOrEqual, 2)),
        (b'<', b'>') | (b'!', b'=') => Some((Operator::NotEqual, 2)),
        (b'>', b'>') => Some((Operator::ShiftRight, 2)),
        (b'>', b'=') => Some((Operator::GreaterOrEqual, 2)),
        (b'=', b'=') => Some((Operator::Equal, 2)),
        (b'&', b'&') => Some((Operator::Both, 2)),
        (b'|', b'|') => Some((Operator::Either, 2)),
        (b'!', b'!') => Some((Operator::Xor, 2)),
        (b'*', _) => Some((Operator::Multiply, 1)),
        (b'/', _) => Some((Operator::Divide, 1)),
        (b'%', _) => Some((Operator::Remainder, 1)),
        (b'|', _) => Some((Operator::Or, 1)),
        (b'!', _) => Some((Operator::OrNot, 1)),
        (b'^', _) => Some((Operator::Xor, 1)),
        (b'&', _) => Some((Operator::And, 1)),
        (b'+', _) => Some((Operator::Add, 1)),
        (b'-', _) => Some((Operator::Subtract, 1)),
        (b'<', _) => Some((Operator::Less, 1)),
        (b'>', _) => Some((Operator::Greater, 1)),
        _ => None,
    }
}

/// An operator that waits for the value after it, and the value before it.
#[derive(Clone, Copy)]
struct Entry {
    operator: Operator,
    left: u64,
}

/// The operators that wait, the innermost last. 64 can.
#[derive(Clone, Copy)]
pub struct Waiting {
    entries: [Entry; MOST_WAITING],
    count: usize,
    /// How many opening parentheses are among them.
    open: usize,
    /// What went wrong first, if something did: `Deep` where more wait than can, and `Division`.
    pub fault: Option<SourceErrorKind>,
}

impl Waiting {
    /// None.
    pub fn new() -> Self {
        let entry = Entry {
            operator: Operator::Open,
            left: 0,
        };
        Waiting {
            entries: [entry; MOST_WAITING],
            count: 0,
            open: 0,
            fault: None,
        }
    }

    /// Whether a parenthesis is open.
    pub fn is_open(&self) -> bool {
        self.open > 0
    }

    /// Whether the innermost is a minus before its number.
    pub fn is_negated(&self) -> bool {
        match self.last() {
            Some(entry) => matches!(entry.operator, Operator::Negate),
            None => false,
        }
    }

    /// Keeps what went wrong, if it is the first.
    fn fail(&mut self, kind: SourceErrorKind) {
        if self.fault.is_none() {
            self.fault = Some(kind);
        }
    }

    /// The innermost.
    fn last(&self) -> Option<Entry> {
        let index = self.count.checked_sub(1)?;
        self.entries.get(index).copied()
    }

    /// One more, with the value before it.
    pub fn push(&mut self, operator: Operator, left: u64) {
        match self.entries.get_mut(self.count) {
            Some(entry) => *entry = Entry { operator, left },
            None => return self.fail(SourceErrorKind::Deep),
        }
        self.count = self.count.saturating_add(1);
        if matches!(operator, Operator::Open) {
            self.open = self.open.saturating_add(1);
        }
    }

    /// An operator after a value: those that bind as strongly are applied before it.
    pub fn push_between(&mut self, operator: Operator, value: u64) {
        let left = self.applied(operator.rank(), value);
        self.push(operator, left);
    }

    /// What those that bind so strongly make of a value after them. All up to the innermost
    /// parenthesis do that by `LOOSEST`.
    pub fn applied(&mut self, rank: u8, value: u64) -> u64 {
        let mut value = value;
        for _ in 0..MOST_WAITING {
            match self.last() {
                Some(entry) if entry.operator.rank() >= rank => {
                    let made = entry.operator.apply(entry.left, value);
                    if made.is_none() {
                        self.fail(SourceErrorKind::Division);
                    }
                    value = made.unwrap_or(0);
                    self.count = self.count.saturating_sub(1);
                }
                _ => break,
            }
        }
        value
    }

    /// The value of what stands in the innermost parenthesis, which is closed.
    pub fn closed(&mut self, value: u64) -> u64 {
        let value = self.applied(LOOSEST, value);
        self.count = self.count.saturating_sub(1);
        self.open = self.open.saturating_sub(1);
        value
    }
}
