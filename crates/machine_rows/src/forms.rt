//! Objects and images, and bytes that are none. What a row gives are words, which change the bytes that it begins with in order:
//! `cut:N` leaves the first N, `N=BYTES` sets those from offset N on, both numbers in decimal digits, and anything else are further bytes.
//! Bytes are pairs of hexadecimal digits.

ghost use Rattle.obj_file.specs.Image.{IsImage};
ghost use Rattle.obj_file.specs.Object.{IsObject};

use crate::digits::{append_digits, bytes_of};
use hex::encode;
use obj_file::{FormFault, Image, Object, read_image, read_object, write_image, write_object};
use std::alloc::{AllocError, Global};

/// The bytes of a row.
fn changed(alloc: Global, base: &str, given: &str) -> Result<Vec<u8>, AllocError> {
    let mut bytes = bytes_of(alloc, base)?;
    for word in given.split_whitespace() {
        if let Some(length) = word.strip_prefix("cut:") {
            bytes.truncate(length.parse::<u16>().unwrap_or(0) as usize);
        } else if let Some((at, digits)) = word.split_once('=') {
            let new = bytes_of(alloc, digits)?;
            set(&mut bytes, at.parse::<u16>().unwrap_or(0), new.as_slice());
        } else {
            append_digits(&mut bytes, word)?;
        }
    }
    Ok(bytes)
}

/// Sets the bytes from an offset on, as far as there are any.
fn set(bytes: &mut Vec<u8>, at: u16, new: &[u8]) {
    for (k, byte) in new.iter().enumerate() {
        if let Some(place) = bytes.get_mut(k.saturating_add(at as usize)) {
            *place = *byte;
        }
    }
}

/// What is told of an object or an image.
#[derive(Clone, Copy, PartialEq, Eq)]
pub enum Told {
    /// That it is one.
    Whole,
    /// What it holds.
    Parts,
    /// The bytes that are written of it.
    Again,
}

fn fault_line(alloc: Global, fault: FormFault) -> Result<String, AllocError> {
    match fault {
        FormFault::BadForm { at } => format!(in alloc; "bad {at}"),
        FormFault::OutOfMemory => String::from_str(alloc, "no memory"),
    }
}

/// What is told of the bytes of an object.
pub fn object_line(
    alloc: Global,
    base: &str,
    given: &str,
    told: Told,
) -> Result<String, AllocError> {
    let bytes = changed(alloc, base, given)?;
    match read_object(alloc, bytes.as_slice()) {
        Ok(object) => object_told(alloc, &object, told),
        Err(fault) => fault_line(alloc, fault),
    }
}

fn object_told(alloc: Global, object: &Object, told: Told) -> Result<String, AllocError>
    requires { IsObject object.now }
{
    match told {
        Told::Whole => String::from_str(alloc, "fine"),
        Told::Parts => object_parts(alloc, object),
        Told::Again => match write_object(alloc, object) {
            Ok(bytes) => encode(alloc, bytes.as_slice()),
            Err(_) => String::from_str(alloc, "no memory"),
        },
    }
}

/// Whether an object is legacy code, its file, how many bytes of code and symbols it has, and its fix-ups and places.
fn object_parts(alloc: Global, object: &Object) -> Result<String, AllocError> {
    let (legacy, file) = (object.legacy, object.file.as_str());
    let (code, symbols) = (
        object.code.as_slice().len(),
        object.symbols.as_slice().len(),
    );
    let (fixes, places) = (object.fixes.as_slice(), object.places.as_slice());
    format!(in alloc; "{legacy} {file} {code} {symbols} {fixes:?} {places:?}")
}

/// What is told of the bytes of an image.
pub fn image_line(
    alloc: Global,
    base: &str,
    given: &str,
    told: Told,
) -> Result<String, AllocError> {
    let bytes = changed(alloc, base, given)?;
    match read_image(alloc, bytes.as_slice()) {
        Ok(image) => image_told(alloc, &image, told),
        Err(fault) => fault_line(alloc, fault),
    }
}

fn image_told(alloc: Global, image: &Image, told: Told) -> Result<String, AllocError>
    requires { IsImage image.now }
{
    match told {
        Told::Whole => String::from_str(alloc, "fine"),
        Told::Parts => image_parts(alloc, image),
        Told::Again => match write_image(alloc, image) {
            Ok(bytes) => encode(alloc, bytes.as_slice()),
            Err(_) => String::from_str(alloc, "no memory"),
        },
    }
}

/// The outer entries of an image, its segments, files and places.
fn image_parts(alloc: Global, image: &Image) -> Result<String, AllocError> {
    let outers = image.outers;
    let mut line = format!(in alloc; "{outers} outer")?;
    for segment in image.segments.as_slice() {
        let (at, bytes) = (segment.at, segment.bytes.as_slice());
        line.push_str(format!(in alloc; ", {at:x} {bytes:?}")?.as_str())?;
    }
    for file in image.files.as_slice() {
        let name = file.as_str();
        line.push_str(format!(in alloc; ", {name}")?.as_str())?;
    }
    let places = image.places.as_slice();
    line.push_str(format!(in alloc; ", {places:?}")?.as_str())?;
    Ok(line)
}
