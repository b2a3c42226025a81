// Where a value is in a program.

ghost use Rattle.std.specs.Prelude.{◌≡◌, Some};
ghost use Rattle.bril_json.specs.Steps.{file, in_function, in_item};
ghost use Rattle.bril_json.specs.declared.fault.JsonFault.TheVariants.{Shape, Float, Deep};

use crate::fault::JsonFault;

// The numbers, from 0, of the function and the item that a value is part of, or None where it is part of none.
#[derive(Clone, Copy, Drop)]
pub struct Position {
    pub func: Option<u32>,
    pub item: Option<u32>,
}

impl Position {
    // The position of a value outside all functions.
    pub fn file() -> Position
        ensures { result ≡ file }
    {
        Position {
            func: None,
            item: None,
        }
    }

    // The position of a value in a function, outside its items.
    pub fn function(func: u32) -> Position
        ensures { result ≡ in_function func }
    {
        Position {
            func: Some(func),
            item: None,
        }
    }

    // The position of a value in an item of a function.
    pub fn item(func: u32, item: u32) -> Position
        ensures { result ≡ in_item func item }
    {
        Position {
            func: Some(func),
            item: Some(item),
        }
    }

    // The fault that something here is not as the JSON form requires.
    pub fn shape(self) -> JsonFault
        ensures { result ≡ Shape self.func self.item }
    {
        JsonFault::Shape {
            func: self.func,
            item: self.item,
        }
    }

    // The fault that something here is of the floating point extension.
    pub fn float(self) -> JsonFault
        ensures { result ≡ Float self.func self.item }
    {
        JsonFault::Float {
            func: self.func,
            item: self.item,
        }
    }

    // The fault that a type here has more than 32 `ptr`.
    pub fn deep(self) -> JsonFault
        ensures { result ≡ Deep self.func self.item }
    {
        JsonFault::Deep {
            func: self.func,
            item: self.item,
        }
    }
}
