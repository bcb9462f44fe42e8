ghost use Rattle.std.specs.Prelude.{Some};

use std::error::Error;
use std::fmt;

// A camera as it is handed in. An eye coordinate, in spacings, is −1,024 to 1,024; a focal length is at least 0.0625 and below 4,096.
#[derive(Clone, Copy, Debug)]
pub enum Camera {
    Perspective { eye_x: f32, eye_y: f32, focal: f32 },
    Overhead { focal: f32 },
}

// The first field that is not a number, infinite or out of range: refusal 10. (Its Display is written out, and not derived, since what it prints is stated.)
#[derive(Clone, Copy, PartialEq, Eq, Debug)]
pub enum CameraFault {
    EyeX,
    EyeY,
    Focal,
}

impl fmt::Display for CameraFault {
    ghost use Rattle.optics.specs.Texts.{camera_text};

    ghost output = { λ f. Some (camera_text f) };

    fn fmt<W: fmt::Write>(&self, f: &mut fmt::Formatter<W>) -> fmt::Result {
        let field = match self {
            CameraFault::EyeX => 1,
            CameraFault::EyeY => 2,
            CameraFault::Focal => 3,
        };
        write!(f, "refused 10 field {field}")
    }
}

impl Error for CameraFault {}
