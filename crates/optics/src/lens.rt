ghost use Rattle.std.specs.Prelude.{◌≡◌, ◌*◌, ◌^◌, ◌<◌, ◌≤◌};
ghost use Rattle.bintree.specs.Samples.{box};
ghost use Rattle.bintree.specs.Refusals.{told};
ghost use Rattle.bintree.specs.Views.{corners_of};
ghost use Rattle.optics.specs.Cameras.{eye_sixteenths, focal_sixteenths, focusing, camera_refusal};
ghost use Rattle.optics.specs.Lenses.{gap as gap_of, distance as distance_of, seen as seen_of};

use crate::camera::{Camera, CameraFault};
use bintree::point::BoundingBox;
use bintree::triangle::Triangle;
use std::num::{saturating_f32_to_i16, saturating_f32_to_u16};

// Where a perspective's eye stands, in whole sixteenths of a spacing.
#[derive(Clone, Copy)]
struct Eye {
    x: i16,
    y: i16,
}

// A camera in whole sixteenths: its focal length, and its eye unless it is overhead. Only a camera that is in order becomes one.
#[derive(Clone, Copy)]
pub struct Lens {
    eye: Option<Eye>,
    focal: u16,
}

// The sixteenths of an eye coordinate, the fraction dropped toward zero.
fn eye_sixteenths(x: f32) -> Option<i16>
    ensures { result ≡ eye_sixteenths x }
{
    if x >= -1024.0 && x <= 1024.0 {
        Some(saturating_f32_to_i16(x * 16.0))
    } else {
        None
    }
}

// The sixteenths of a focal length, the fraction dropped. (Not one function with the eye's: the ranges end differently, one closed and one open, and the
// numbers are signed there and not here; as parameters these would say less.)
fn focal_sixteenths(x: f32) -> Option<u16>
    ensures { result ≡ focal_sixteenths x }
{
    if x >= 0.0625 && x < 4096.0 {
        Some(saturating_f32_to_u16(x * 16.0))
    } else {
        None
    }
}

// The camera in whole sixteenths, or refusal 10 with its first field that will not do.
impl TryFrom<Camera> for Lens {
    type Error = CameraFault;

    ghost try_from_gives = { λ c r. told (λ l. l) camera_refusal r ≡ focusing c };

    fn try_from(camera: Camera) -> Result<Lens, CameraFault> {
        let (eye, focal) = match camera {
            Camera::Perspective {
                eye_x,
                eye_y,
                focal,
            } => {
                let x = eye_sixteenths(eye_x).ok_or(CameraFault::EyeX)?;
                let y = eye_sixteenths(eye_y).ok_or(CameraFault::EyeY)?;
                (Some(Eye { x, y }), focal)
            }
            Camera::Overhead { focal } => (None, focal),
        };
        let focal = focal_sixteenths(focal).ok_or(CameraFault::Focal)?;
        Ok(Lens { eye, focal })
    }
}

// How far an eye coordinate lies outside the interval from low to high, whose ends are in spacings; in sixteenths.
fn gap(eye: i16, low: u32, high: u32) -> u64
    requires { low ≤ high }
    ensures value { result ≡ gap_of eye (16 * low) (16 * high) }
    ensures bound { result < 2 ^ 40 }
{
    let eye = i64::from(eye);
    let low = 16 * i64::from(low);
    let high = 16 * i64::from(high);
    if eye < low {
        (low - eye) as u64
    } else if eye > high {
        (eye - high) as u64
    } else {
        0
    }
}

impl Lens {
    // The distance from the eye to a box, in sixteenths; none from overhead.
    fn distance(self, b: BoundingBox) -> u64
        requires across { b.low.x ≤ b.high.x }
        requires along { b.low.y ≤ b.high.y }
        ensures value { result ≡ distance_of self.eye b }
        ensures bound { result < 2 ^ 40 }
    {
        match self.eye {
            Some(eye) => {
                let across = gap(eye.x, b.low.x, b.high.x);
                let along = gap(eye.y, b.low.y, b.high.y);
                across.max(along)
            }
            None => 0,
        }
    }

    // What a bound on the triangle comes to through this lens: times the focal length, over the distance and one spacing; 4,294,967,295 at most.
    pub fn seen(self, bound: u32, triangle: Triangle) -> u32
        ensures { result ≡ seen_of self bound (box (corners_of triangle)) }
    {
        let far = self.distance(triangle.bounding_box());
        let whole = u64::from(bound) * u64::from(self.focal) / (far + 16);
        whole.min(u64::from(u32::MAX)) as u32
    }
}
