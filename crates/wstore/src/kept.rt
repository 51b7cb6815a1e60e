//! Places of one kind, with an image that they can be brought back to.

ghost use Rattle.std.specs.Prelude.{◌≡◌, ◌+◌, ◌<◌, ◌≤◌, Some, length, map, slice_get, slice_set, IfOk};
ghost use Rattle.wstore.specs.Segments.{overwritten};

use std::alloc::{AllocError, Global};
use std::marker::Model;

/// Places that are written one by one. Where none was written since the image was kept, both ways
/// of making them alike copy nothing.
pub struct Kept<T> {
    places: Vec<T>,
    image: Vec<T>,
    written: bool,
}

impl<T> Model for Kept<T> {
    ghost use Rattle.wstore.specs.inside.Kept.{WithImage, with_image_code, IsKept};

    ghost Value = { WithImage T };

    ghost coded = { with_image_code T.code };

    ghost view = { λ k. record { places = k.places.items; image = k.image.items } };

    ghost invariant = { λ k. IsKept k.places.items k.image.items k.written };
}

// By hand, so that who drops such places calls this, and their parts' drops are proved here alone.
impl<T: Drop> Drop for Kept<T> {
    fn drop(self) {
        let Self {
            places: _places,
            image: _image,
            written: _,
        } = self;
    }
}

impl<T: Copy> Kept<T> {
    /// These places, which are also the image.
    pub fn new(alloc: Global, places: Vec<T>) -> Result<Kept<T>, AllocError>
        ensures places { IfOk result (λ kept. kept.places ≡ places.items) }
        ensures image { IfOk result (λ kept. kept.image ≡ places.items) }
    {
        let Ok(image) = Vec::from_slice(alloc, places.as_slice()) else {
            return Err(AllocError);
        };
        Ok(Kept {
            places,
            image,
            written: false,
        })
    }

    /// What is at the places.
    #[inline(always)]
    pub fn places(&self) -> &[T]
        ensures { result.now ≡ self.now.places }
    {
        self.places.as_slice()
    }

    /// What is at a place.
    #[inline(always)]
    pub fn get(&self, at: usize) -> T
        requires { at < length self.now.places }
        ensures { slice_get self.now.places at ≡ Some result }
    {
        self.places[at]
    }

    /// Writes a place.
    #[inline(always)]
    pub fn set(&mut self, at: usize, value: T)
        requires { at < length self.old.places }
        ensures places { self.new.places ≡ slice_set self.old.places at value }
        ensures image { self.new.image ≡ self.old.image }
    {
        self.written = true;
        self.places[at] = value;
    }

    /// Makes the places the image.
    pub fn keep(&mut self)
        ensures places { self.new.places ≡ self.old.places }
        ensures image { self.new.image ≡ self.old.places }
    {
        if self.written {
            self.image.copy_from_slice(self.places.as_slice());
            self.written = false;
        }
    }

    /// Makes the image the places.
    pub fn reset(&mut self)
        ensures places { self.new.places ≡ self.old.image }
        ensures image { self.new.image ≡ self.old.image }
    {
        if self.written {
            self.places.copy_from_slice(self.image.as_slice());
            self.written = false;
        }
    }
}

/// Writes functions into a table, from a place on.
pub fn put_functions(table: &mut Kept<Option<u32>>, at: u32, functions: &[u32])
    requires { at + length functions.now ≤ length table.old.places }
    ensures places { table.new.places ≡ overwritten table.old.places at (map Some functions.now) }
    ensures image { table.new.image ≡ table.old.image }
{
    let at = at as usize;
    for (i, function) in functions.iter().enumerate() {
        table.set(at + i, Some(*function));
    }
}
