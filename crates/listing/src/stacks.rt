// What the image is read through.
use crate::Request;
use crate::lister::tell_all;
use cache::Cache;
use devices::{BLOCK, Device};
use flat::Flat;
use quota::Quota;
use std::alloc::{AllocError, Global};
use std::io::Write;
use window::Window;

// The layers over the flat device of the image, lowest first.
#[derive(Clone, Copy, Default, Debug)]
pub struct Layers {
    pub window: bool,
    pub quota: bool,
    pub cache: bool,
}

// How many other blocks the image lies behind, where it is seen through a window.
const BASE: u32 = 7;

// Tells of an image through the layers that were asked for.
pub(crate) fn list_over<W: Write>(
    heap: Global,
    out: &mut W,
    request: &Request,
    image: Vec<u8>,
) -> anyhow::Result<()> {
    if request.layers.window {
        let bottom = Flat::new(behind(heap, image.as_slice())?);
        over_window(heap, out, request, Window::new(bottom, BASE, u32::MAX))
    } else {
        over_window(heap, out, request, Flat::new(image))
    }
}

fn over_window<W: Write, D: Device + Drop>(
    heap: Global,
    out: &mut W,
    request: &Request,
    device: D,
) -> anyhow::Result<()> {
    if request.layers.quota {
        // Nothing is claimed.
        over_quota(heap, out, request, Quota::new(device, 0))
    } else {
        over_quota(heap, out, request, device)
    }
}

fn over_quota<W: Write, D: Device + Drop>(
    heap: Global,
    out: &mut W,
    request: &Request,
    device: D,
) -> anyhow::Result<()> {
    if request.layers.cache {
        tell_all(heap, out, request, Cache::new(device))
    } else {
        tell_all(heap, out, request, device)
    }
}

// The image behind other blocks.
fn behind(heap: Global, image: &[u8]) -> Result<Vec<u8>, AllocError> {
    let mut bytes = vec![in heap; 0xff_u8; BLOCK * BASE as usize]?;
    bytes.extend_from_slice(image)?;
    Ok(bytes)
}
