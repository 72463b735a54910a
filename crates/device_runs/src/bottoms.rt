// The devices at the bottom of a stack.
use crate::images::{flat_image, slotted_image};
use crate::model::Model;
use crate::random::Random;
use devices::Device;
use flat::Flat;
use slotted::Slotted;
use std::alloc::{AllocError, Global};

pub trait Bottom: Device + Drop {
    fn name() -> &'static str;

    // A random image for it.
    fn image(random: &mut Random) -> Result<Vec<u8>, AllocError>;

    // The model of the device on an image.
    fn model(heap: Global, image: &[u8]) -> Result<Model, AllocError>;

    // The device on an image.
    fn open(heap: Global, image: Vec<u8>) -> Result<Self, AllocError>;

    // The image, again.
    fn close(self) -> Vec<u8>;
}

impl Bottom for Flat {
    fn name() -> &'static str {
        "flat"
    }

    fn image(random: &mut Random) -> Result<Vec<u8>, AllocError> {
        flat_image(random)
    }

    fn model(heap: Global, image: &[u8]) -> Result<Model, AllocError> {
        Model::flat(heap, image)
    }

    fn open(_heap: Global, image: Vec<u8>) -> Result<Flat, AllocError> {
        Ok(Flat::new(image))
    }

    fn close(self) -> Vec<u8> {
        self.into_bytes()
    }
}

impl Bottom for Slotted {
    fn name() -> &'static str {
        "slotted"
    }

    fn image(random: &mut Random) -> Result<Vec<u8>, AllocError> {
        slotted_image(random)
    }

    fn model(heap: Global, image: &[u8]) -> Result<Model, AllocError> {
        Model::slotted(heap, image)
    }

    fn open(heap: Global, image: Vec<u8>) -> Result<Slotted, AllocError> {
        Ok(Slotted::open(heap, image)?)
    }

    fn close(self) -> Vec<u8> {
        self.into_bytes()
    }
}
