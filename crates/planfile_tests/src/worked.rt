// The file of the plan with left rows (3, 0) and (1, 2), right rows (0) and (0), windows 0 to 100, in minutes.
use layout::FileFault;
use planfile::read_plan;

#[rattlefmt::skip]
pub(crate) const FILE: [u8; 72] = [
    // head: edition 1, minutes, 2 stations, 2 left benches, 1 right bench
    1, 1, 2, 2, 1,
    // left network: a map and two coefficients for each station
    0, 0, 0, 3, 0, 0, 0, 3, 0, 0, 0, 0,
    0, 0, 0, 3, 0, 0, 0, 1, 0, 0, 0, 2,
    // right network: a map and a coefficient for each station
    0, 0, 0, 1, 0, 0, 0, 0,
    0, 0, 0, 1, 0, 0, 0, 0,
    // left windows: a map, a floor and a ceiling for each bench
    3, 0, 0, 0, 0, 0, 0, 0, 100,
    3, 0, 0, 0, 0, 0, 0, 0, 100,
    // right window
    3, 0, 0, 0, 0, 0, 0, 0, 100,
];

// The worked file with a byte in place of the one at an offset.
pub(crate) fn with_byte(at: usize, value: u8) -> [u8; 72] {
    let mut file = FILE;
    if let Some(byte) = file.get_mut(at) {
        *byte = value;
    }
    file
}

// The worked file with a number in place of the one at an offset.
pub(crate) fn with_number(at: usize, value: i32) -> [u8; 72] {
    let mut file = FILE;
    if at < 69 {
        file[at..at + 4].copy_from_slice(&value.to_be_bytes());
    }
    file
}

// The number, part, line and byte of a fault.
pub(crate) fn told(fault: FileFault) -> (u8, u8, usize, usize) {
    (
        fault.refusal.number(),
        fault.part.number(),
        fault.line,
        fault.byte,
    )
}

// What a file is refused with, none where it is accepted.
pub(crate) fn refusal(file: &[u8]) -> Option<(u8, u8, usize, usize)> {
    read_plan(file).err().map(told)
}
