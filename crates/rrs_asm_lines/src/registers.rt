//! The names of registers: x0 to x31, and those of the ABI.

/// The number of the register of this name.
pub fn register_number(name: &[u8]) -> Option<usize> {
    match name {
        [b'z', b'e', b'r', b'o'] => Some(0),
        [b'r', b'a'] => Some(1),
        [b's', b'p'] => Some(2),
        [b'g', b'p'] => Some(3),
        [b't', b'p'] => Some(4),
        [b'f', b'p'] => Some(8),
        [b't', digit @ b'0'..=b'2'] => Some(5 + usize::from(*digit - b'0')),
        [b's', digit @ b'0'..=b'1'] => Some(8 + usize::from(*digit - b'0')),
        [b'a', digit @ b'0'..=b'7'] => Some(10 + usize::from(*digit - b'0')),
        [b's', digit @ b'2'..=b'9'] => Some(16 + usize::from(*digit - b'0')),
        [b's', b'1', digit @ b'0'..=b'1'] => Some(26 + usize::from(*digit - b'0')),
        [b't', digit @ b'3'..=b'6'] => Some(25 + usize::from(*digit - b'0')),
        [b'x', digit @ b'0'..=b'9'] => Some(usize::from(*digit - b'0')),
        [b'x', ten @ b'1'..=b'3', digit @ b'0'..=b'9'] => {
            let number = usize::from(*ten - b'0') * 10 + usize::from(*digit - b'0');
            (number < 32).then_some(number)
        }
        _ => None,
    }
}
