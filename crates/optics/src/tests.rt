// Cameras tried on examples.
use crate::camera::{Camera, CameraFault};
use crate::lens::Lens;
use bintree::order::Order;

// What 1,000 comes to on a triangle of order 1.
fn seen(camera: Camera, number: u32) -> Option<u32> {
    let lens = Lens::try_from(camera).ok()?;
    let t = Order::new(1).ok()?.triangle(number)?;
    Some(lens.seen(1000, t))
}

fn fault(camera: Camera) -> Option<CameraFault> {
    Lens::try_from(camera).err()
}

fn perspective(eye_x: f32, eye_y: f32, focal: f32) -> Camera {
    Camera::Perspective {
        eye_x,
        eye_y,
        focal,
    }
}

#[test]
fn focal_lengths(rt: HostRuntime) {
    for focal in [0.0625, 0.07, 4095.9] {
        assert_eq!(rt; fault(Camera::Overhead { focal }), None);
        assert_eq!(rt; fault(perspective(0.0, 0.0, focal)), None);
    }
    for focal in [0.0, -1.0, 0.0624, 4096.0, 0.0 / 0.0, 1.0 / 0.0, -1.0 / 0.0] {
        assert_eq!(rt; fault(Camera::Overhead { focal }), Some(CameraFault::Focal));
        assert_eq!(rt;
            fault(perspective(0.0, 0.0, focal)),
            Some(CameraFault::Focal)
        );
    }
    assert_eq!(rt; seen(Camera::Overhead { focal: 0.0625 }, 2), Some(62));
    assert_eq!(rt; seen(Camera::Overhead { focal: 1.12 }, 2), Some(1062));
}

#[test]
fn eyes(rt: HostRuntime) {
    for edge in [-1024.0, 1024.0, -0.03, 0.0] {
        assert_eq!(rt; fault(perspective(edge, edge, 1.0)), None);
    }
    for wrong in [-1024.5, 1025.0, 0.0 / 0.0, 1.0 / 0.0, -1.0 / 0.0] {
        assert_eq!(rt;
            fault(perspective(wrong, 0.0, 1.0)),
            Some(CameraFault::EyeX)
        );
        assert_eq!(rt;
            fault(perspective(0.0, wrong, 1.0)),
            Some(CameraFault::EyeY)
        );
        assert_eq!(rt;
            fault(perspective(wrong, wrong, 0.0)),
            Some(CameraFault::EyeX)
        );
        assert_eq!(rt;
            fault(perspective(0.0, wrong, 0.0)),
            Some(CameraFault::EyeY)
        );
    }
}

// Triangle 2 of order 1 has the box from (0, 0) to (2, 2), triangle 4 that from (0, 0) to (2, 1).
#[test]
fn distances(rt: HostRuntime) {
    assert_eq!(rt; seen(perspective(0.5, 0.5, 1.0), 2), Some(1000));
    assert_eq!(rt; seen(perspective(-0.03, 1.0, 1.0), 2), Some(1000));
    assert_eq!(rt; seen(perspective(-1.0, 1.0, 1.0), 2), Some(500));
    assert_eq!(rt; seen(perspective(1.0, 5.0, 1.0), 2), Some(250));
    assert_eq!(rt; seen(perspective(-1.0, 4.0, 1.0), 4), Some(250));
    assert_eq!(rt; seen(perspective(-1024.0, 0.0, 1.0), 2), Some(0));
}
