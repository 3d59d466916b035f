// The fields of a payload, read one behind the other.
use journal::record::Call;

#[derive(Clone, Copy)]
pub(crate) struct Payload<'a>(pub(crate) &'a [u8]);

impl<'a> Payload<'a> {
    fn array<const N: usize>(&mut self) -> Option<[u8; N]> {
        let (front, rest) = self.0.split_first_chunk::<N>()?;
        self.0 = rest;
        Some(*front)
    }

    pub(crate) fn byte(&mut self) -> Option<u8> {
        self.array().map(u8::from_le_bytes)
    }

    pub(crate) fn number2(&mut self) -> Option<u16> {
        self.array().map(u16::from_le_bytes)
    }

    // A size or a length: 4 bytes.
    pub(crate) fn number4(&mut self) -> Option<usize> {
        Some(u32::from_le_bytes(self.array()?) as usize)
    }

    // A place: 8 bytes.
    pub(crate) fn number8(&mut self) -> Option<usize> {
        self.array().map(usize::from_le_bytes)
    }

    // A size, and that many bytes.
    pub(crate) fn field(&mut self) -> Option<&'a [u8]> {
        let size = self.number4()?;
        let (field, rest) = self.0.split_at_checked(size)?;
        self.0 = rest;
        Some(field)
    }

    // The lent output: the front of out, as long as the payload says, of bytes A5. No more than the whole of out is lent.
    pub(crate) fn lend<'b>(&mut self, out: &'b mut [u8]) -> Option<&'b mut [u8]> {
        let room = self.number4()?;
        let lent = out.get_mut(..room)?;
        lent.fill(0xa5);
        Some(lent)
    }

    // A call of the session by its kind, and its body. Only Begin, Feed and Handshake have one.
    pub(crate) fn call(mut self, kind: u16) -> Option<(Call, &'a [u8])> {
        let call = match kind {
            1 => Call::Begin(self.number2()?, self.byte()?),
            2 => Call::Feed,
            3 => Call::Early,
            4 => Call::Handshake(self.number2()?),
            5 => Call::Application,
            6 => Call::Complete,
            7 => Call::Update(self.byte()?),
            8 => Call::Close,
            _ => return None,
        };
        let body = self.rest();
        match call {
            Call::Begin(_, _) | Call::Feed | Call::Handshake(_) => Some((call, body)),
            _ => body.is_empty().then_some((call, body)),
        }
    }

    // What is left.
    pub(crate) fn rest(self) -> &'a [u8] {
        self.0
    }
}
