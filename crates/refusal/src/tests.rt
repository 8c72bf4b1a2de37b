// The number and the layer of every refusal.
use super::*;

const ALL: [(Refusal, u8, Layer); 18] = [
    (Refusal::ProgramFull, 1, Layer::Program),
    (Refusal::FieldOutOfRange, 2, Layer::Program),
    (Refusal::ThreadOutOfRange, 3, Layer::Replay),
    (Refusal::NoSuchInstruction, 4, Layer::Replay),
    (Refusal::AtAnotherLabel, 5, Layer::Replay),
    (Refusal::RunFull, 6, Layer::Replay),
    (Refusal::ThreadNotFree, 7, Layer::Buffer),
    (Refusal::FenceBeforeDrain, 8, Layer::Replay),
    (Refusal::CellOutOfRange, 9, Layer::Replay),
    (Refusal::AssertFailed, 10, Layer::Replay),
    (Refusal::BufferFull, 11, Layer::Buffer),
    (Refusal::DrainNotFree, 12, Layer::Buffer),
    (Refusal::StoreNotWaiting, 13, Layer::Replay),
    (Refusal::StoreWaits, 14, Layer::Replay),
    (Refusal::TooShort, 15, Layer::Replay),
    (Refusal::RecordCutShort, 16, Layer::Recording),
    (Refusal::RecordUnknown, 17, Layer::Recording),
    (Refusal::RecordOutOfPlace, 18, Layer::Recording),
];

#[test]
fn every_refusal_has_its_number_and_layer(rt: HostRuntime) {
    for (refusal, number, layer) in ALL {
        assert_eq!(rt; refusal.number(), number);
        assert_eq!(rt; refusal.layer(), layer);
    }
}

// The same refusal is equal to itself, and to no other.
#[test]
fn a_refusal_is_equal_to_itself_alone(rt: HostRuntime) {
    for (a, first, _) in ALL {
        for (b, second, _) in ALL {
            assert_eq!(rt; a == b, first == second);
        }
    }
}
