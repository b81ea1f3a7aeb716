// Recovers an image of three slots and one of nine, as they are and with one or two bytes changed, and prints the
// answer, the invalidating stores and the index each time. Every refusal of recovery is among them, with the slot that
// it names.
#![tactic(auto)]

use orderset::{Recovered, recover};
use std::io::Stdout;

// The bytes of an image, each with its place; the others are zero. Slot 1: a put of key 7, version 2, one byte. Slot 2:
// its remove, version 4. Slot 3: a put of key 8, version 3, no bytes.
const THREE_SLOTS: [(usize, u8); 16] = [
    (0, 3),
    (8, 1),
    (136, 7),
    (144, 1),
    (145, 1),
    (152, 5),
    (184, 4),
    (248, 4),
    (264, 7),
    (272, 2),
    (312, 8),
    (376, 8),
    (392, 8),
    (400, 1),
    (440, 6),
    (504, 6),
];

// Nine slots, all broken: the mark of line A is 1. Without that, slots 1 to 8 are empty, and slot 9 is a put of key 9,
// version 1, no bytes, number 2.
const NINE_SLOTS: [(usize, u8); 16] = [
    (0, 9),
    (8, 1),
    (128, 1),
    (256, 1),
    (384, 1),
    (512, 1),
    (640, 1),
    (768, 1),
    (896, 1),
    (1024, 1),
    (1152, 1),
    (1160, 9),
    (1168, 1),
    (1170, 2),
    (1208, 2),
    (1272, 2),
];

// Two bytes that are changed in the image of three slots.
const CHANGES: [[(usize, u8); 2]; 36] = [
    [(511, 0), (511, 0)],
    [(0, 0), (511, 0)],
    [(0, 2), (511, 0)],
    [(8, 2), (511, 0)],
    [(56, 1), (511, 0)],
    [(64, 1), (511, 0)],
    [(128, 2), (511, 0)],
    [(384, 1), (448, 3)],
    [(144, 3), (511, 0)],
    [(146, 1), (511, 0)],
    [(146, 9), (511, 0)],
    [(147, 1), (511, 0)],
    [(146, 8), (511, 0)],
    [(274, 8), (511, 0)],
    [(274, 2), (402, 2)],
    [(145, 81), (511, 0)],
    [(153, 1), (511, 0)],
    [(200, 1), (511, 0)],
    [(273, 1), (511, 0)],
    [(400, 0), (511, 0)],
    [(146, 1), (144, 3)],
    [(144, 3), (145, 81)],
    [(145, 81), (153, 1)],
    [(153, 1), (274, 1)],
    [(274, 1), (401, 1)],
    [(272, 3), (312, 10)],
    [(440, 8), (504, 8)],
    [(440, 4), (504, 4)],
    [(272, 1), (264, 9)],
    [(312, 10), (511, 0)],
    [(128, 1), (511, 0)],
    [(312, 10), (440, 10)],
    [(184, 6), (312, 10)],
    [(312, 0), (376, 0)],
    [(312, 0), (144, 9)],
    [(184, 5), (248, 5)],
];

// The same in the image of nine.
const CHANGES_OF_NINE: [[(usize, u8); 2]; 4] = [
    [(1279, 0), (1279, 0)],
    [(1152, 0), (1279, 0)],
    [(1152, 0), (1170, 0)],
    [(1152, 0), (1024, 0)],
];

fn set_bytes(image: &mut [u8], bytes: &[(usize, u8)]) {
    for &(place, byte) in bytes {
        if let Some(old) = image.get_mut(place) {
            *old = byte;
        }
    }
}

fn image_of<const N: usize>(bytes: &[(usize, u8)]) -> [u8; N] {
    let mut image = [0; N];
    set_bytes(&mut image, bytes);
    image
}

// Recovery, with an index that held other numbers.
fn show_recover(stdout: Stdout, image: &[u8], heads: &mut [u32], next: &mut [u32]) {
    let answer = recover(image, heads, next);
    show::recovered(stdout, answer.recovered);
    if let Recovered::Refused { slot, .. } = answer.recovered {
        let _ = print!(stdout; " slot {slot}");
    }
    show::invalidations(stdout, answer.invalidations);
    show::index(stdout, heads, next);
}

// The same of an image in which two bytes are changed.
fn show_changed(
    stdout: Stdout,
    image: &mut [u8],
    changes: [(usize, u8); 2],
    heads: &mut [u32],
    next: &mut [u32],
) {
    let [(place, byte), (second, other)] = changes;
    let _ = print!(stdout; "byte {place} {byte} byte {second} {other}");
    set_bytes(image, &changes);
    show_recover(stdout, image, heads, next);
}

fn main(rt: HostRuntime) {
    let stdout = rt.stdout();
    show::text(stdout, b"511 bytes:");
    show_recover(stdout, &[0; 511], &mut [9], &mut [9; 4]);
    let image = image_of::<512>(&THREE_SLOTS);
    show::text(stdout, b"no head:");
    show_recover(stdout, &image, &mut [], &mut [9; 4]);
    show::text(stdout, b"next of 3:");
    show_recover(stdout, &image, &mut [9], &mut [9; 3]);
    for changes in CHANGES {
        let mut image = image_of::<512>(&THREE_SLOTS);
        show_changed(stdout, &mut image, changes, &mut [9; 2], &mut [9; 4]);
    }
    for changes in CHANGES_OF_NINE {
        show::text(stdout, b"nine slots, ");
        let mut image = image_of::<1280>(&NINE_SLOTS);
        show_changed(stdout, &mut image, changes, &mut [9], &mut [9; 10]);
    }
}
