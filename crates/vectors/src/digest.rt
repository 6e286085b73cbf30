// What a buffer holds before a call, and the sum that is printed of it afterwards.

// Byte i is i modulo 251: no two places that are near have one value.
pub fn prepare(out: &mut [u8]) {
    for (i, byte) in out.iter_mut().enumerate() {
        *byte = (i % 251) as u8;
    }
}

// The sum, one bit further.
fn bit(sum: u32) -> u32 {
    if sum % 2 == 1 {
        (sum / 2) ^ 0xEDB88320
    } else {
        sum / 2
    }
}

// The sum, eight bits further.
fn byte(sum: u32, b: u8) -> u32 {
    (0..8).fold(sum ^ u32::from(b), |sum, _| bit(sum))
}

// The CRC-32 of gzip and PNG.
pub fn crc(s: &[u8]) -> u32 {
    !s.iter().fold(u32::MAX, |sum, b| byte(sum, *b))
}
