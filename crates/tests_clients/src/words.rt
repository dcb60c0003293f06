//! The words of a script's line, and the texts that they stand for.

use layout::{digest, put_in};
use lms_sign::{LEAF_COUNT, PrivateKey, SIGNATURE_SIZE};
use std::alloc::Global;
use tests_aids::Host;
use tests_aids::blocks::{EMPTY_INODE, HELLO, HELLO_INODE, NO_BYTES_INODE, OF_F, OF_F_INODE};
use tests_aids::tables::FORM;
use tests_aids::texts::{FIRST_HANDLE, joined, key_of, named, signed};

/// What is made by hand: texts, each of which has a letter, and by which keys some are signed, those of users 0 to 3.
#[derive(Drop)]
pub(crate) struct ByHand {
    pub(crate) texts: Vec<Vec<u8>>,
    pub(crate) keys: [PrivateKey<Global>; 4],
}

/// No text yet.
pub(crate) fn nothing_by_hand(rt: &impl Host) -> ByHand {
    let mut texts = Vec::new(rt.alloc());
    for _letter in b'A'..=b'z' {
        texts.push(Vec::new(rt.alloc())).expect(rt, "memory");
    }
    let keys = [key_of(rt, 0), key_of(rt, 1), key_of(rt, 2), key_of(rt, 3)];
    ByHand { texts, keys }
}

/// The text of a letter.
pub(crate) fn text_at<'a>(rt: &impl Host, texts: &'a [Vec<u8>], letter: u8) -> &'a [u8] {
    let place = usize::from(letter.wrapping_sub(b'A'));
    texts.get(place).expect(rt, "a text")
}

/// The letter has this text from now on.
pub(crate) fn put_text(rt: &impl Host, texts: &mut [Vec<u8>], letter: u8, text: Vec<u8>) {
    let place = usize::from(letter.wrapping_sub(b'A'));
    put_in(texts.get_mut(place).expect(rt, "a text"), text);
}

/// The words of a line, between spaces.
pub(crate) fn words_of<'a>(rt: &impl Host, line: &'a [u8]) -> Vec<&'a [u8]> {
    let mut words = Vec::new(rt.alloc());
    for word in line.split(|byte| *byte == b' ') {
        if !word.is_empty() {
            words.push(word).expect(rt, "memory");
        }
    }
    words
}

/// The number that decimal digits tell.
pub(crate) fn number(word: &[u8]) -> u32 {
    let mut number = 0u32;
    for digit in word {
        let digit = u32::from(digit.wrapping_sub(b'0'));
        number = number.wrapping_mul(10).wrapping_add(digit);
    }
    number
}

/// The number of a user or another principal.
pub(crate) fn byte(word: &[u8]) -> u8 {
    (number(word) % 256) as u8
}

/// The number of a place in an i-table.
pub(crate) fn short(word: &[u8]) -> u16 {
    (number(word) % 65_536) as u16
}

/// The number of a hexadecimal digit.
fn digit_of(letter: u8) -> u8 {
    let first = if letter < b'a' { b'0' } else { b'a' - 10 };
    letter.wrapping_sub(first)
}

/// Adds bytes to a text.
pub(crate) fn push(rt: &impl Host, text: &mut Vec<u8>, bytes: &[u8]) {
    text.extend_from_slice(bytes).expect(rt, "memory");
}

/// Adds the bytes that pairs of hexadecimal digits tell.
fn push_digits(rt: &impl Host, text: &mut Vec<u8>, digits: &[u8]) {
    for pair in digits.chunks(2) {
        let [high, low] = pair else {
            panic!(rt; "half a byte");
        };
        let byte = digit_of(*high)
            .wrapping_mul(16)
            .wrapping_add(digit_of(*low));
        text.push(byte).expect(rt, "memory");
    }
}

/// A size in two bytes.
pub(crate) fn two_bytes(size: usize) -> [u8; 2] {
    let [.., high, low] = size.to_be_bytes();
    [high, low]
}

/// Adds what a mark before the letter of a text stands for, or the byte of two digits.
fn push_marked(rt: &impl Host, text: &mut Vec<u8>, texts: &[Vec<u8>], [mark, letter]: [u8; 2]) {
    if mark < b'#' || mark > b'+' {
        return push_digits(rt, text, &[mark, letter]);
    }
    let made = text_at(rt, texts, letter);
    match mark {
        b'#' => push(rt, text, digest(made).as_bytes()),
        b'%' => push(rt, text, &named(made)),
        b'*' => push(
            rt,
            text,
            &two_bytes(made.len().saturating_sub(SIGNATURE_SIZE)),
        ),
        _ => push(rt, text, &two_bytes(made.len())),
    }
}

/// The text that every script knows by a letter.
fn known(rt: &impl Host, letter: u8) -> &'static [u8] {
    match letter {
        b'E' => EMPTY_INODE,
        b'f' => OF_F,
        b'g' => OF_F_INODE,
        b'H' => HELLO_INODE,
        b'h' => HELLO,
        b'N' => NO_BYTES_INODE,
        b'0' => &[0; 32],
        b'1' => &[1; 1023],
        b'5' => &[5; 32],
        b'7' => &[7; 32],
        b'F' => FORM,
        b'B' => &FIRST_HANDLE,
        b'S' => &[0; SIGNATURE_SIZE],
        _ => panic!(rt; "no text {letter}"),
    }
}

/// The key of a digit.
pub(crate) fn key_in<'a>(
    keys: &'a [PrivateKey<Global>; 4],
    digit: &[u8],
) -> &'a PrivateKey<Global> {
    let [zero, one, two, three] = keys;
    match digit {
        b"0" => zero,
        b"1" => one,
        b"2" => two,
        _ => three,
    }
}

/// Adds what a word stands for.
fn push_word(rt: &impl Host, text: &mut Vec<u8>, by_hand: &ByHand, word: &[u8]) {
    let ByHand { texts, keys } = by_hand;
    match word {
        [letter] => push(rt, text, text_at(rt, texts, *letter)),
        [b'\'', letters @ ..] => push(rt, text, letters),
        [b':', digits @ ..] => push(rt, text, &number(digits).to_be_bytes()),
        [b'$', letter] => push(rt, text, known(rt, *letter)),
        [b'!', key @ ..] => push(rt, text, key_in(keys, key).public().as_bytes()),
        [mark, letter] => push_marked(rt, text, texts, [*mark, *letter]),
        _ => push_digits(rt, text, word),
    }
}

/// The text of these words.
pub(crate) fn text_of(rt: &impl Host, by_hand: &ByHand, words: &[&[u8]]) -> Vec<u8> {
    let mut text = Vec::new(rt.alloc());
    for word in words {
        push_word(rt, &mut text, by_hand, word);
    }
    text
}

/// A text, and its signature by the key of a digit.
fn signed_by(rt: &impl Host, by_hand: &ByHand, letter: u8, key: &[u8], leaf: u32) -> Vec<u8> {
    let ByHand { texts, keys } = by_hand;
    let key = key_in(keys, key);
    if leaf >= LEAF_COUNT {
        panic!(rt; "no leaf");
    }
    signed(rt, key, leaf, text_at(rt, texts, letter))
}

/// The bytes of a text from one place to another.
fn between(rt: &impl Host, text: &[u8], from: u32, to: u32) -> Vec<u8> {
    let (from, to) = (from as usize, to as usize);
    joined(rt, &[text.get(from..to).expect(rt, "a part of the text")])
}

/// The text with the lowest bit of the byte at a place changed.
fn flipped(rt: &impl Host, text: &[u8], at: u32) -> Vec<u8> {
    let mut text = joined(rt, &[text]);
    *text.get_mut(at as usize).expect(rt, "a byte") ^= 1;
    text
}

/// The text that an act makes of another one: signed, a part of it, or with a bit changed.
fn made_of(rt: &impl Host, by_hand: &ByHand, verb: u8, words: &[&[u8]]) -> Vec<u8> {
    let [of, first, rest @ ..] = words else {
        panic!(rt; "of what");
    };
    let (letter, first) = (letter_of(of), number(first));
    let second = match rest {
        [second, ..] => *second,
        _ => b"".as_slice(),
    };
    match verb {
        b'k' => signed_by(rt, by_hand, letter, second, first),
        b'b' => between(
            rt,
            text_at(rt, &by_hand.texts, letter),
            first,
            number(second),
        ),
        _ => flipped(rt, text_at(rt, &by_hand.texts, letter), first),
    }
}

/// The letter that a word begins with.
pub(crate) fn letter_of(word: &[u8]) -> u8 {
    match word {
        [letter, ..] => *letter,
        _ => 0,
    }
}

/// Makes a text by hand, or tells one or its size.
pub(crate) fn makes(rt: &impl Host, by_hand: &mut ByHand, verb: u8, words: &[&[u8]]) -> Vec<u8> {
    let [name, rest @ ..] = words else {
        panic!(rt; "no name");
    };
    let letter = letter_of(name);
    match verb {
        b'e' => return joined(rt, &[text_at(rt, &by_hand.texts, letter)]),
        b'm' => return size_of(rt, text_at(rt, &by_hand.texts, letter)),
        _ => {}
    }
    let text = if verb == b't' {
        text_of(rt, by_hand, rest)
    } else {
        made_of(rt, by_hand, verb, rest)
    };
    put_text(rt, &mut by_hand.texts, letter, text);
    Vec::new(rt.alloc())
}

/// The size of a text in four bytes.
fn size_of(rt: &impl Host, text: &[u8]) -> Vec<u8> {
    let [.., first, second, third, last] = text.len().to_be_bytes();
    joined(rt, &[&[first, second, third, last]])
}
