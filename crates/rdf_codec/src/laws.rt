//! The laws of the spellings.
ghost use Rattle.std.specs.Prelude.{◌≡◌, ◌<◌, ◌≤◌, ◌++◌, ℕ, List, Ok, length, slice_index};
ghost use Rattle.rdf_types.specs.declared.records.Record.{Record};
ghost use Rattle.rdf_codec.specs.declared.image_blocks.ImageBlock.{ImageBlock};
ghost use Rattle.rdf_codec.specs.declared.messages.Message.{Message};
ghost use Rattle.rdf_codec.specs.declared.ships.Ship.{Ship};
ghost use Rattle.rdf_codec.specs.declared.volume_blocks.VolumeBlock.{VolumeBlock};
ghost use Rattle.rdf_codec.specs.ImageBlocks.{image_spelling, IsImageBlock};
ghost use Rattle.rdf_codec.specs.ImageReading.{image_block_of};
ghost use Rattle.rdf_codec.specs.Messages.{message_spelling, IsMessage, message_of};
ghost use Rattle.rdf_codec.specs.Ships.{ship_spelling, IsShip};
ghost use Rattle.rdf_codec.specs.ShipReading.{ship_of};
ghost use Rattle.rdf_codec.specs.Spelling.{record_spelling, IsRecord};
ghost use Rattle.rdf_codec.specs.VolumeBlocks.{volume_spelling, most_bytes, IsVolumeBlock};
ghost use Rattle.rdf_codec.specs.VolumeReading.{volume_block_of};

/// Each record has one spelling, and none begins another one: what follows a record cannot be taken for a part of it.
pub fn none_begins_another()
    ensures { (rec other : Record) (x y : List ℕ) → IsRecord rec → IsRecord other →
        record_spelling rec ++ x ≡ record_spelling other ++ y → (rec ≡ other) × (x ≡ y) }
{}

/// An image takes at most 460 bytes, and the other records fewer.
pub fn spelling_fits()
    ensures { (rec : Record) → IsRecord rec → length (record_spelling rec) ≤ 460 }
{}

/// Each block of a volume's file has one spelling, and none begins another one.
pub fn no_volume_block_begins_another()
    ensures { (block other : VolumeBlock) (x y : List ℕ) → IsVolumeBlock block → IsVolumeBlock other →
        volume_spelling block ++ x ≡ volume_spelling other ++ y → (block ≡ other) × (x ≡ y) }
{}

/// A block of a volume's file takes at most as many bytes as one of its kind may, and at least 9. None but one of an
/// index takes more than 16,139.
pub fn volume_block_fits()
    ensures { (block : VolumeBlock) → IsVolumeBlock block →
        (9 ≤ length (volume_spelling block)) × (length (volume_spelling block) ≤ most_bytes block) }
{}

/// What is read of bytes is a block that is spelled so, and what is spelled so is read.
pub fn volume_blocks_read()
    ensures read { (bytes : List ℕ) (block : VolumeBlock) → ((i : ℕ) → slice_index bytes i < 256) →
        volume_block_of bytes ≡ Ok block → IsVolumeBlock block × (bytes ≡ volume_spelling block) }
    ensures spelled { (block : VolumeBlock) → IsVolumeBlock block → volume_block_of (volume_spelling block) ≡ Ok block }
{}

/// Each shipment has one spelling, and none begins another one.
pub fn no_shipment_begins_another()
    ensures { (ship other : Ship) (x y : List ℕ) → IsShip ship → IsShip other →
        ship_spelling ship ++ x ≡ ship_spelling other ++ y → (ship ≡ other) × (x ≡ y) }
{}

/// A shipment takes at most 29,970 bytes, and at least 18.
pub fn shipment_fits()
    ensures { (ship : Ship) → IsShip ship →
        (18 ≤ length (ship_spelling ship)) × (length (ship_spelling ship) ≤ 29970) }
{}

/// What is read of bytes is a shipment that is spelled so, and what is spelled so is read.
pub fn shipments_read()
    ensures read { (bytes : List ℕ) (ship : Ship) → ((i : ℕ) → slice_index bytes i < 256) →
        ship_of bytes ≡ Ok ship → IsShip ship × (bytes ≡ ship_spelling ship) }
    ensures spelled { (ship : Ship) → IsShip ship → ship_of (ship_spelling ship) ≡ Ok ship }
{}

/// Each block of an image trail's file has one spelling, and none begins another one.
pub fn no_image_block_begins_another()
    ensures { (block other : ImageBlock) (x y : List ℕ) → IsImageBlock block → IsImageBlock other →
        image_spelling block ++ x ≡ image_spelling other ++ y → (block ≡ other) × (x ≡ y) }
{}

/// A block of an image trail's file takes at most 29,971 bytes, and at least 2.
pub fn image_block_fits()
    ensures { (block : ImageBlock) → IsImageBlock block →
        (2 ≤ length (image_spelling block)) × (length (image_spelling block) ≤ 29971) }
{}

/// What is read of bytes is a block of an image trail's file that is spelled so, and what is spelled so is read.
pub fn image_blocks_read()
    ensures read { (bytes : List ℕ) (block : ImageBlock) → ((i : ℕ) → slice_index bytes i < 256) →
        image_block_of bytes ≡ Ok block → IsImageBlock block × (bytes ≡ image_spelling block) }
    ensures spelled { (block : ImageBlock) → IsImageBlock block → image_block_of (image_spelling block) ≡ Ok block }
{}

/// Each message has one spelling, and none begins another one.
pub fn no_message_begins_another()
    ensures { (message other : Message) (x y : List ℕ) → IsMessage message → IsMessage other →
        message_spelling message ++ x ≡ message_spelling other ++ y → (message ≡ other) × (x ≡ y) }
{}

/// A message takes at most 29,971 bytes, and at least 9.
pub fn message_fits()
    ensures { (message : Message) → IsMessage message →
        (9 ≤ length (message_spelling message)) × (length (message_spelling message) ≤ 29971) }
{}

/// What is read of bytes is a message that is spelled so, and what is spelled so is read.
pub fn messages_read()
    ensures read { (bytes : List ℕ) (message : Message) → ((i : ℕ) → slice_index bytes i < 256) →
        message_of bytes ≡ Ok message → IsMessage message × (bytes ≡ message_spelling message) }
    ensures spelled { (message : Message) → IsMessage message → message_of (message_spelling message) ≡ Ok message }
{}
