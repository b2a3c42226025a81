// Laws alone: how the image of code over slots is laid out. Which words each item has, where items and functions begin,
// the image's guards and its stack.
//
// The definitions are in `specs/layout/`: `Items.antt` has the words of each item, and how many they are; `Image.antt` the entries
// and the whole image. The sizes depend on numbers and on homes alone, never on a place in the image.

mod laws;

pub use laws::images_are_laid;
