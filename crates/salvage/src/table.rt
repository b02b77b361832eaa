// The table of contents: whether it is sound, and the bodies that it then names.
ghost use Rattle.std.specs.Prelude.{◌≡◌, true, ◌+◌, ◌*◌, ◌≤◌, ◌<◌, length};
ghost use Rattle.image.specs.Longest.{table_bytes};
ghost use Rattle.bodies.specs.Contents.{count_of, body_of, most_bodies};
ghost use Rattle.salvage.specs.Table.{sound, sound_table, follow};

use bodies::contents;
use bodies::contents::table_number;

// The most bytes of an image, and the most bodies.
const MOST_BYTES: usize = 65536;

const MOST_BODIES: usize = 7;

// The bodies follow each other from `at` on, and the last ends with the image.
fn is_in_order(image: &[u8], count: usize, at: usize) -> bool
    requires { (count ≤ most_bodies) × (table_bytes count ≤ length image.now) × (at ≤ 100) }
    ensures { result ≡ follow image.now count 1 at }
{
    let mut p = at;
    for i in 0..count {
        let begin = table_number(image, 2 * i + 1);
        let long = table_number(image, 2 * i + 2);
        if begin != p {
            return false;
        }
        p += long;
    }
    p == image.len()
}

// The table of an image that has one.
fn is_sound_table(image: &[u8]) -> bool
    requires { 4 ≤ length image.now }
    ensures { result ≡ sound_table image.now }
{
    let count = table_number(image, 0);
    if count < 3 {
        return false;
    }
    if MOST_BODIES < count {
        return false;
    }
    let at = image::table_bytes(count);
    if image.len() < at {
        return false;
    }
    is_in_order(image, count, at)
}

// The image is not too long, and its table is sound.
pub(crate) fn is_sound(image: &[u8]) -> bool
    ensures { result ≡ sound image.now }
{
    if MOST_BYTES < image.len() {
        return false;
    }
    if image.len() < 4 {
        return false;
    }
    is_sound_table(image)
}

// How many bodies a sound table names.
pub(crate) fn count_of(image: &[u8]) -> usize
    requires { sound image.now ≡ true }
    ensures { result ≡ count_of image.now }
{
    table_number(image, 0)
}

// Body k itself.
pub(crate) fn body(image: &[u8], k: u32) -> &[u8]
    requires { (sound image.now ≡ true) × (1 ≤ k) × (k ≤ count_of image.now) }
    ensures { result.now ≡ body_of image.now k }
{
    contents::part(image, k)
}
