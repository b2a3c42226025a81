// What a script is carried out on.

use bril_tree::program::Prog;
use bril_tree::value::Value;
use bril_words::MachineSettings;
use rv64_words::image::Image;
use rv64_words::points::Points;

/// The image of a program with its points, the values of the arguments of its `main`, and how it is run.
#[derive(Clone, Copy, Drop)]
pub struct Target<'a> {
    pub image: &'a Image,
    pub points: &'a Points,
    pub program: &'a Prog,
    pub values: &'a [Value],
    pub settings: MachineSettings,
}
