// What an operation is given: NUMBER LENGTH HEX HEX, where NUMBER is four hex digits and LENGTH is decimal.
use super::fields::{bytes, cut, decimal, four_digits};

#[derive(Clone, Copy)]
pub(crate) struct Arguments<'a> {
    pub(crate) number: u16,
    pub(crate) length: usize,
    pub(crate) x: &'a [u8],
    pub(crate) y: &'a [u8],
}

impl<'a> Arguments<'a> {
    // Each field has to be there; the bytes are read to the front of x and y.
    pub(crate) fn all(fields: &[u8], x: &'a mut [u8], y: &'a mut [u8]) -> Option<Self> {
        let (number, fields) = cut(fields);
        let (length, fields) = cut(fields);
        let (first, second) = cut(fields);
        Some(Self {
            number: four_digits(number)?,
            length: decimal(length)?,
            x: bytes(first, x)?,
            y: bytes(second, y)?,
        })
    }

    // What an operation does not ask for may be left out behind the last that it does: bytes that are left out are none. A
    // number that can not be read is the greatest, which is no suite, group, PSK kind, side or name: the call refuses it.
    pub(crate) fn some(fields: &[u8], x: &'a mut [u8], y: &'a mut [u8]) -> Option<Self> {
        let (number, fields) = cut(fields);
        let (length, fields) = cut(fields);
        let (first, second) = cut(fields);
        Some(Self {
            number: four_digits(number).unwrap_or(u16::MAX),
            length: decimal(length).unwrap_or(text::decimal::MAX as usize),
            x: bytes_or_none(first, x)?,
            y: bytes_or_none(second, y)?,
        })
    }
}

fn bytes_or_none<'a>(digits: &[u8], room: &'a mut [u8]) -> Option<&'a [u8]> {
    match digits {
        b"" => Some(&[]),
        _ => bytes(digits, room),
    }
}
