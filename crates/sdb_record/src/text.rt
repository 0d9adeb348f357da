//! The text of a name, padded with spaces.
ghost use Rattle.std.specs.Prelude.{◌≡◌, ◌<◌, ◌≤◌, length, take, IfSome};
ghost use Rattle.sdb_record.specs.Text.{is_blank, text_in, unprinted};

fn is_blank(octet: u8) -> bool
    ensures { result ≡ is_blank octet }
{
    octet == 0x20 || octet == 0x00
}

// How many octets stand before the longest suffix of spaces and zeros.
fn text_len(field: &[u8]) -> usize
    ensures within { result ≤ length field.now }
    ensures text { take result field.now ≡ text_in field.now }
{
    let mut len = field.len();
    while len > 0 && is_blank(field[len - 1]) {
        len -= 1;
    }
    len
}

// The text in a field, without what stands behind it.
pub fn text_in(field: &[u8]) -> &[u8]
    ensures text { result.now ≡ text_in field.now }
    ensures within { length result.now ≤ length field.now }
{
    &field[..text_len(field)]
}

// The place of the first octet of a text that can't be printed.
pub fn unprinted(text: &[u8]) -> Option<usize>
    ensures place { result ≡ unprinted text.now }
    ensures within { IfSome result (λ k. k < length text.now) }
{
    text.iter().position(|octet| *octet < 0x20 || *octet > 0x7e)
}
